// The writer's checks of a description, W3 to W5: whole entries and valid fields, no entry of a section after the edition, and enough room.
#![tactic(auto)]

ghost use Rattle.std.specs.Prelude.{◌≡◌, [], ◌∷◌, ◌*◌, ◌/◌, ◌%◌, ◌^◌, ◌≤◌, ◌↔◌, length, take, drop, if◌then◌else◌, ◌≢◌, nat_le};
ghost use Rattle.std.specs.Prelude.{IsTrue, All};
ghost use Rattle.std.specs.Bool.{then_some};
ghost use Rattle.entries.specs.Entry.{entries_ok, sum};
ghost use Rattle.fields.specs.Fields.{scan_of, describable};
ghost use Rattle.writer_checks.specs.Description.{lists_of, described, list_ok, lists_ok, later_sections_empty, with_mark, used};
ghost use Rattle.writer_checks.specs.Fast.{sums_of, sums_number};
ghost use Rattle.writer_checks.specs.Steps.{sum_to};

use entries::Bits;
use versions::Edition;

// The sums of the words of each list, modulo 2^64.
#[derive(Clone, Copy)]
pub struct Totals {
    pub dram: u64,
    pub console: u64,
    pub ncoh: u64,
    pub coh: u64,
}

// The four lists of a description, in section order.
#[derive(Clone, Copy)]
pub struct Lists<'a> {
    pub dram: &'a [u64],
    pub console: &'a [u64],
    pub ncoh: &'a [u64],
    pub coh: &'a [u64],
}

// Sums and checks the whole banks or regions of `words` in one loop: their sum if each keeps its rule. `k` is their section, not 1.
fn sum_banks(words: &[u64], minor: u64, k: usize) -> Option<u64>
    requires { k ≢ 1 }
    ensures { result ≡ then_some (entries_ok minor k (length words.now / 2) words.now) (sum (take (2 * (length words.now / 2)) words.now) % 2 ^ 64) }
{
    let mut bits = Bits::none();
    let mut sum: u64 = 0;
    let (banks, _) = words.as_chunks::<2>();
    for bank in banks {
        let [base, size] = *bank;
        sum = std::num::wrapping_add_u64(sum, base);
        sum = std::num::wrapping_add_u64(sum, size);
        bits = entries::with_bank(bits, base, size);
    }
    entries::banks_clear(bits).then_some(sum)
}

// The sum of all words, modulo 2^64.
fn sum_of(words: &[u64]) -> u64
    ensures { result ≡ sum words.now % 2 ^ 64 }
{
    let mut total: u64 = 0;
    for word in words {
        total = std::num::wrapping_add_u64(total, *word);
    }
    total
}

// Whether each whole console of `words` keeps its rule on a page of version 0.`minor`.
fn consoles_ok(words: &[u64], minor: u64) -> bool
    ensures { result ≡ entries_ok minor 1 (length words.now / 6) words.now }
{
    let mut bits = Bits::none();
    let (consoles, _) = words.as_chunks::<6>();
    for console in consoles {
        bits = entries::with_console(bits, minor, console[0], console[1], console[5]);
    }
    entries::consoles_clear(bits, minor)
}

// The sum of the words, modulo 2^64, if `words` is a whole number of entries of section `k`, each within its rule.
fn sum_list(words: &[u64], minor: u64, k: usize) -> Option<u64>
    ensures { result ≡ then_some (list_ok minor k words.now) (sum words.now % 2 ^ 64) }
{
    let step = entries::entry_words(k);
    if words.len() % step != 0 {
        return None;
    }
    if k == 1 {
        let sum = sum_of(words);
        return consoles_ok(words, minor).then_some(sum);
    }
    sum_banks(words, minor, k)
}

// W3: whether `fields` may be written.
pub fn fields_ok(fields: &[u8]) -> bool
    ensures { result ≡ describable (scan_of fields.now) }
{
    fields::description_ok(fields)
}

// Whether the lists of sections [from, 4) are empty; `n` has the four lengths.
fn empty_from(from: usize, n: [usize; 4]) -> bool
    requires { from ≤ 4 }
    ensures { IsTrue result ↔ All (λ x. x ≡ 0) (drop from n) }
{
    n[from..].iter().all(|len| *len == 0)
}

// Whether n[0] + n[1] + n[2] + n[3] <= room. Subtracts, because the sum could overflow.
fn fits(room: usize, n: [usize; 4]) -> bool
    ensures { result ≡ nat_le (sum_to 4 n) room }
{
    let mut left = room;
    for len in &n {
        if left < *len {
            return false;
        }
        left -= *len;
    }
    true
}

// The bytes that `fields` take on a page: their length plus 3 for the end mark, or 0 if there are none.
fn marked_size(fields: &[u8]) -> usize
    requires { length fields.now ≤ 4096 }
    ensures { result ≡ length (with_mark fields.now) }
{
    if fields.len() == 0 {
        return 0;
    }
    fields.len() + 3
}

impl<'a> Lists<'a> {
    // The four lengths, in words.
    fn lens(self) -> [usize; 4]
        ensures { result ≡ length self.entry.dram.now ∷ length self.entry.console.now
            ∷ length self.entry.ncoh.now ∷ length self.entry.coh.now ∷ [] }
    {
        [
            self.dram.len(),
            self.console.len(),
            self.ncoh.len(),
            self.coh.len(),
        ]
    }

    // W3: checks and sums all four lists, including those of sections after the edition. `None` if a list is not a whole number of entries or
    // an entry breaks its rule.
    pub fn sums(self, minor: u64) -> Option<Totals>
        ensures value { result ≡ sums_of minor self.entry.dram.now self.entry.console.now self.entry.ncoh.now self.entry.coh.now }
        ensures result_value { sums_number result ≡ (if lists_ok minor (lists_of self.entry) then 0 else 3) }
    {
        Some(Totals {
            dram: sum_list(self.dram, minor, 0)?,
            console: sum_list(self.console, minor, 1)?,
            ncoh: sum_list(self.ncoh, minor, 2)?,
            coh: sum_list(self.coh, minor, 3)?,
        })
    }

    // W4: whether the list of every section after the edition is empty.
    pub fn later_sections_empty(self, e: Edition) -> bool
        ensures { result ≡ later_sections_empty e.minor (lists_of self.entry) }
    {
        empty_from(e.sections() as usize, self.lens())
    }

    // W5: whether core, arrays and fields fit into 4,096 bytes.
    pub fn room_ok(self, e: Edition, fields: &[u8]) -> bool
        ensures { result ≡ nat_le (used e.minor (described self.entry fields.now)) 4096 }
    {
        if words::PAGE_LEN < fields.len() {
            return false;
        }
        let left = words::PAGE_LEN - (e.core_size() as usize);
        let marked = marked_size(fields);
        if left < marked {
            return false;
        }
        let room = (left - marked) / 8;
        fits(room, self.lens())
    }
}
