// The entries of a section's array, read in the page: their rules (E1 to E5) and their checksum (S4).
// A section is its number in ML1 (docs/RULES.md): 0 DRAM banks, 1 consoles, 2 non-coherent regions, 3 coherent regions.
#![tactic(auto)]

ghost use Rattle.std.specs.Prelude.{◌≡◌, ◌+◌, ◌*◌, ◌%◌, ◌^◌, ◌≤◌, length, ◌≢◌, nat_le, true, false, MatchOption};
ghost use Rattle.words.specs.Tests.{both};
ghost use Rattle.entries.specs.Entry.{words_per_entry, size, bank_ok, console_ok};
ghost use Rattle.entries.specs.Array.{words_at, sound_of};
ghost use Rattle.entries.specs.Steps.{entries_at, sum_at};
ghost use Rattle.entries.specs.Fast.{no_bits, bank_clear, console_clear};

// Length of an entry in bytes: of a bank or region, and of a console.
const BANK_BYTES: u64 = 16;

const CONSOLE_BYTES: u64 = 48;

pub const BANK_LEN: usize = 16;

pub const CONSOLE_LEN: usize = 48;

// Number of words of a bank or region, and of a console.
const BANK_WORDS: usize = 2;

const CONSOLE_WORDS: usize = 6;

// The number of words in an entry of section `k` (ML4): 6 for a console, 2 for a bank or region.
pub fn entry_words(k: usize) -> usize
    ensures { (result ≡ words_per_entry k) × (2 ≤ result) × (result ≤ 6) }
{
    if k == 1 {
        return CONSOLE_WORDS;
    }
    BANK_WORDS
}

// Whether `count` entries of section `k` fit into `room` bytes. Divides, because the product could overflow; a constant divisor costs no
// division.
pub fn fits(k: usize, count: u64, room: u64) -> bool
    ensures { result ≡ nat_le (size k count) room }
{
    if k == 1 {
        return count <= room / CONSOLE_BYTES;
    }
    count <= room / BANK_BYTES
}

// Bits of many entries, combined with "or". The rule holds for every entry exactly if they are clear (`banks_clear`, `consoles_clear`). So
// the loop has no early exit and the compiler can vectorize it.
#[derive(Clone, Copy)]
pub struct Bits {
    pub low: u64,
    pub high: u64,
    pub flags: u64,
}

impl Bits {
    // The bits of no entry.
    pub fn none() -> Self
        ensures { result ≡ no_bits }
    {
        Bits {
            low: 0,
            high: 0,
            flags: 0,
        }
    }
}

// Adds a bank or region to `bits`. If `size` is 0, size - 1 wraps to a huge number and fails the limit.
pub fn with_bank(bits: Bits, base: u64, size: u64) -> Bits
    ensures { bank_clear result ≡ both (bank_clear bits) (bank_ok base size) }
{
    let span = size.wrapping_sub(1);
    let last = base.wrapping_add(span);
    Bits {
        low: bits.low | (base | size),
        high: bits.high | (span | last),
        flags: bits.flags,
    }
}

// Adds a console, on a page of minor `minor`, to `bits`. Counts in pages, because 4096 * pages could overflow.
pub fn with_console(bits: Bits, minor: u64, base: u64, pages: u64, flags: u64) -> Bits
    ensures { console_clear minor result ≡ both (console_clear minor bits) (console_ok minor base pages flags) }
{
    let span = pages.wrapping_sub(1);
    let last = (base / words::PAGE_SIZE).wrapping_add(span);
    Bits {
        low: bits.low | base,
        high: bits.high | (span | last),
        flags: bits.flags | flags,
    }
}

// Whether every bank or region in `bits` keeps its rule (E1 to E4).
pub fn banks_clear(bits: Bits) -> bool
    ensures { result ≡ bank_clear bits }
{
    bits.low % words::PAGE_SIZE == 0
        && bits.low < 0x20_0000_0000_0000
        && bits.high < words::ADDRESS_LIMIT
}

// Whether every console in `bits`, on a page of minor `minor`, keeps its rule (E1, E3 to E5).
pub fn consoles_clear(bits: Bits, minor: u64) -> bool
    ensures { result ≡ console_clear minor bits }
{
    if bits.low % words::PAGE_SIZE != 0 {
        return false;
    }
    if 0x100_0000_0000 <= bits.high {
        return false;
    }
    if 4 < minor {
        return true;
    }
    if bits.flags != 0 {
        return false;
    }
    true
}

// The sum of the `n` words from `at` on, modulo 2^64.
fn sum_words(page: &[u8], at: usize, n: usize) -> u64
    requires { at + 8 * n ≤ length page.now }
    ensures { result ≡ sum_at at n page.now % 2 ^ 64 }
{
    let mut sum: u64 = 0;
    let mut from = at;
    for i in 0..n {
        let end = from + 8;
        let cell = &page[from..end];
        sum = sum.wrapping_add(words::whole_word(cell, 0));
        from = end;
    }
    sum
}

// The sum of the words of `count` banks or regions of section `k` at `at`, modulo 2^64, if every one keeps its rule. One loop does both.
fn sum_of_banks(page: &[u8], minor: u64, k: usize, at: usize, count: usize) -> Option<u64>
    requires { (k ≢ 1) × (at + 16 * count ≤ length page.now) }
    ensures { MatchOption result (entries_at minor k at count page.now ≡ false) (λ sum. (entries_at minor k at count page.now ≡ true) × (sum ≡ sum_at at (2 * count) page.now % 2 ^ 64)) }
{
    let mut bits = Bits::none();
    let mut sum: u64 = 0;
    let mut from = at;
    for i in 0..count {
        let end = from + BANK_LEN;
        let bank = &page[from..end];
        let base = words::whole_word(bank, 0);
        let size = words::whole_word(bank, 8);
        sum = sum.wrapping_add(base).wrapping_add(size);
        bits = with_bank(bits, base, size);
        from = end;
    }
    banks_clear(bits).then_some(sum)
}

// Whether each of the `count` consoles at `at` keeps its rule.
fn consoles_ok(page: &[u8], minor: u64, at: usize, count: usize) -> bool
    requires { at + 48 * count ≤ length page.now }
    ensures { result ≡ entries_at minor 1 at count page.now }
{
    let mut bits = Bits::none();
    let mut from = at;
    for i in 0..count {
        let end = from + CONSOLE_LEN;
        let console = &page[from..end];
        let base = words::whole_word(console, 0);
        let pages = words::whole_word(console, 8);
        bits = with_console(bits, minor, base, pages, words::whole_word(console, 40));
        from = end;
    }
    consoles_clear(bits, minor)
}

// The sum of the words of `count` entries of section `k` at `at`, modulo 2^64, if every one keeps its rule. For consoles two loops, because
// one loop over all six words of a console is slower.
fn sum_of_entries(page: &[u8], minor: u64, k: usize, at: usize, count: usize) -> Option<u64>
    requires { at + size k count ≤ length page.now }
    ensures { MatchOption result (entries_at minor k at count page.now ≡ false) (λ sum. (entries_at minor k at count page.now ≡ true) × (sum ≡ sum_at at (words_per_entry k * count) page.now % 2 ^ 64)) }
{
    if k == 1 {
        let sum = sum_words(page, at, 6 * count);
        return consoles_ok(page, minor, at, count).then_some(sum);
    }
    sum_of_banks(page, minor, k, at, count)
}

// The part of a section's rule that is the same in every edition: count, alignment of the pointer, entries and checksum.
fn array_rules_ok(
    page: &[u8],
    minor: u64,
    k: usize,
    at: usize,
    count: u64,
    pointer: u64,
    check: u64,
) -> bool
    requires { at + size k count ≤ length page.now }
    ensures { result ≡ sound_of minor k count pointer check (words_at k count at page.now) }
{
    if count == 0 {
        return false;
    }
    if pointer % 8 != 0 {
        return false;
    }
    match sum_of_entries(page, minor, k, at, count as usize) {
        Some(sum) => count
            .wrapping_add(pointer)
            .wrapping_add(sum.wrapping_add(check))
            == 0,
        None => false,
    }
}

// The same for any offset and count. Returns false if the array is not within the page.
pub fn array_ok(
    page: &[u8],
    minor: u64,
    k: usize,
    at: usize,
    count: u64,
    pointer: u64,
    check: u64,
) -> bool
    ensures { result ≡ both (nat_le (at + size k count) (length page.now)) (sound_of minor k count pointer check (words_at k count at page.now)) }
{
    if page.len() < at {
        return false;
    }
    if !fits(k, count, (page.len() - at) as u64) {
        return false;
    }
    array_rules_ok(page, minor, k, at, count, pointer, check)
}
