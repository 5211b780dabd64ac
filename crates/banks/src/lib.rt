// The granule record: memory in up to 16 banks. A record is 33 words: the number of banks, then base and size of each. The granule table
// has the banks' granules in bank order; an address in a hole between banks is on no granule.
#![tactic(auto)]

ghost use Rattle.std.specs.Prelude.{◌≡◌, ◌/◌, ◌≤◌, pos, if◌then◌else◌};
ghost use Rattle.codes.specs.Codes.{minus, number_of};
ghost use Rattle.entries.specs.Entry.{bank_ok};
ghost use Rattle.banks.specs.Banks.{follows, granule_count, holds, record_from, takes, SetUp, set_up_of};
ghost use Rattle.banks.specs.Fast.{no_bank, granule_in, bank_of, found_from, first_bank, has_one_bank};

use codes::Code;
use entries::Bits;

// Most banks of a record, as a word of the record and as a length.
const BANKS_MOST: u64 = 16;

const BANK_PLACES: usize = 16;

// Words of a record.
pub const GRANULES_WORDS: usize = 33;

pub type GranulesImage = [u64; GRANULES_WORDS];

// A bank, and the number of granules in the banks before it.
#[derive(Clone, Copy)]
pub struct BankSpan {
    pub base: u64,
    pub size: u64,
    pub before: u64,
}

// The granule of an address (its index in the table, if it is on one), and the bank to look in first for the next address.
#[derive(Clone, Copy)]
pub struct Found {
    pub granule: Option<usize>,
    pub bank: BankSpan,
}

// ---- the banks ----

// Whether a bank meets the reader's rule.
fn bank_ok(base: u64, size: u64) -> bool
    ensures { result ≡ bank_ok base size }
{
    entries::banks_clear(entries::with_bank(Bits::none(), base, size))
}

// Whether a bank meets the reader's rule and starts at or after `low`, the end of the bank before.
fn bank_follows(low: u64, base: u64, size: u64) -> bool
    ensures { result ≡ follows low base size }
{
    low <= base && bank_ok(base, size)
}

// Returns the number of granules of a record; 0 if the set-up would refuse its banks (BN5).
pub fn granule_count(granules: &GranulesImage) -> u64
    ensures { result ≡ granule_count granules.now }
{
    let count = granules[0];
    if BANKS_MOST < count {
        return 0;
    }
    let mut low: u64 = 0;
    let mut sum: u64 = 0;
    let (banks, _) = granules[1..].as_chunks::<2>();
    for bank in &banks[..count as usize] {
        let [base, size] = *bank;
        if !bank_follows(low, base, size) {
            return 0;
        }
        sum += size / words::PAGE_SIZE;
        low = base + size;
    }
    sum
}

// Returns the record of `count` banks, read from their bytes: 16 bytes a bank, base and size.
fn record_from(shown: &[u8], count: usize) -> GranulesImage
    requires { count ≤ 16 }
    ensures { result ≡ record_from count shown.now }
{
    let mut made = [0u64; GRANULES_WORDS];
    made[0] = count as u64;
    for (i, word) in made[1..=2 * count].iter_mut().enumerate() {
        *word = words::word_at(shown, 8 * i);
    }
    made
}

// Sets up the record for a table of `n` granules (BN3, BN4). `shown` has the banks that the reader shows, as the array lookup returns them.
// INVAL leaves the record unchanged. A `Code` and no `Result`: its caller passes the code on as x0, and would turn OK back into one.
pub fn set_up(shown: &[u8], n: u64, granules: &mut GranulesImage) -> Code
    ensures fact { ◌≡◌ {A = SetUp} (record { code = result; granules = granules.new }) (set_up_of shown.now n granules.old) }
    ensures result_value { number_of result ≡ (if takes shown.now n then pos 0 else minus 5) }
{
    if shown.len() % entries::BANK_LEN != 0 {
        return Code::Inval;
    }
    let count = shown.len() / entries::BANK_LEN;
    if BANK_PLACES < count {
        return Code::Inval;
    }
    if n == 0 {
        return Code::Inval;
    }
    let made = record_from(shown, count);
    if granule_count(&made) != n {
        return Code::Inval;
    }
    *granules = made;
    Code::Ok
}

// ---- the granule of an address ----

// Whether `address` is in [base, base + size). Subtracts, because base + size could overflow.
fn bank_holds(base: u64, size: u64, address: u64) -> bool
    ensures { result ≡ holds base size address }
{
    base <= address && address - base < size
}

// Returns the number of granules of a bank of any size.
fn granules_in(size: u64) -> u64
    ensures { (result ≡ size / 4096) × (result ≤ 0x10_0000_0000_0000) }
{
    size / words::PAGE_SIZE
}

// Returns a bank that holds no address.
pub fn no_bank() -> BankSpan
    ensures { result ≡ no_bank }
{
    BankSpan {
        base: 0,
        size: 0,
        before: 0,
    }
}

// Returns the granule of an address in one bank. The addition wraps for no bank of a record that has granules.
fn granule_in(bank: BankSpan, address: u64) -> Option<usize>
    ensures { result ≡ granule_in bank address }
{
    if address % words::PAGE_SIZE != 0 {
        return None;
    }
    if !bank_holds(bank.base, bank.size, address) {
        return None;
    }
    let index = bank
        .before
        .wrapping_add((address - bank.base) / words::PAGE_SIZE);
    Some(index as usize)
}

// Returns the first bank that holds an address, or no bank. Does not check the banks.
fn bank_of(granules: &GranulesImage, address: u64) -> BankSpan
    ensures { result ≡ bank_of granules.now address }
{
    let count = granules[0];
    if BANKS_MOST < count {
        return no_bank();
    }
    let mut before: u64 = 0;
    let (banks, _) = granules[1..].as_chunks::<2>();
    for bank in &banks[..count as usize] {
        let [base, size] = *bank;
        if bank_holds(base, size, address) {
            return BankSpan { base, size, before };
        }
        before += granules_in(size);
    }
    no_bank()
}

// Returns the granule of an address, and its bank; the record must have granules. Looks in `bank` first: consecutive addresses of a list
// are mostly in the same bank.
pub fn find_from(granules: &GranulesImage, bank: BankSpan, address: u64) -> Found
    ensures { result ≡ found_from granules.now bank address }
{
    let granule = granule_in(bank, address);
    if granule.is_some() {
        return Found { granule, bank };
    }
    let own = bank_of(granules, address);
    Found {
        granule: granule_in(own, address),
        bank: own,
    }
}

// ---- the shortcut: a record of one bank ----

// Whether a record has one bank, which meets the reader's rule and has `n` granules.
pub fn has_one_bank(granules: &GranulesImage, n: usize) -> bool
    ensures { result ≡ has_one_bank granules.now n }
{
    granules[0] == 1
        && granules[2] / words::PAGE_SIZE == n as u64
        && bank_ok(granules[1], granules[2])
}

// Returns the granule of an address in the first bank.
pub fn find_first(granules: &GranulesImage, address: u64) -> Option<usize>
    ensures { result ≡ granule_in (first_bank granules.now) address }
{
    let first = BankSpan {
        base: granules[1],
        size: granules[2],
        before: 0,
    };
    granule_in(first, address)
}
