// The first fault of a manifest page: the broken rule, its place in the page, and the word found there. Names, order and contents are in
// docs/RULES.md, chapter 5.
#![tactic(auto)]

ghost use Rattle.std.specs.Prelude.{◌≡◌, ℕ, ◌+◌, ◌*◌, ◌%◌, ◌^◌, ◌<◌, ◌≤◌, true, length, Err};
ghost use Rattle.words.specs.Word.{num_at};
ghost use Rattle.entries.specs.Entry.{size};
ghost use Rattle.entries.specs.Array.{words_at};
ghost use Rattle.entries.specs.Steps.{sum_at};
ghost use Rattle.sections.specs.Page.{place_ok};
ghost use Rattle.sections.specs.Section.{in_range};
ghost use Rattle.sections.specs.Steps.{end_of};
ghost use Rattle.reader.specs.Answer.{code_in, read_of};
ghost use Rattle.faults.specs.Faults.{mk_fault, first_fault, first_of, bank_fault, console_fault, entry_fault, entry_of, check_fault, array_fault, section_fault, clash, overlap, field_fault, field_tests, fields_fault, plat_fault, rules_fault, fault_of, diagnosis_number};
ghost use Rattle.faults.specs.declared.Rule.TheVariants.{FieldsOverlap};

use fields::Seen;
use versions::Edition;

// The rules in the order of the checks, P1 to F5. The code is -5 for the first two, -6 for the next two and -7 for all others.
#[derive(Clone, Copy)]
pub enum Rule {
    Length,
    Base,
    Edition,
    Version,
    Padding,
    PlatPointer,
    NoEndMark,
    FieldTag,
    FieldLength,
    FieldTwice,
    EmptySection,
    ArrayPointer,
    ArrayPlace,
    EntryBase,
    EntrySize,
    EntryEmpty,
    EntryEnd,
    EntryFlags,
    Checksum,
    ArrayOverlap,
    FieldsOverlap,
}

// A broken rule. `section` and `index` are 0 if the rule has none. `index` is the number of the entry or field; for an overlap it is the
// section whose array is hit. `found` is the word at `offset`; for a field it is tag + 256 * length; for the page's length, the base and
// the edition it is that number. `wanted` is the correct checksum, 4,096 for a length, otherwise 0.
#[derive(Clone, Copy)]
pub struct Fault {
    pub rule: Rule,
    pub section: u8,
    pub index: usize,
    pub offset: usize,
    pub found: u64,
    pub wanted: u64,
}

// A fault with these values.
fn found_at(
    rule: Rule,
    section: u8,
    index: usize,
    offset: usize,
    found: u64,
    wanted: u64,
) -> Result<(), Fault>
    ensures { result ≡ Err (mk_fault rule section index offset found wanted) }
{
    Err(Fault {
        rule,
        section,
        index,
        offset,
        found,
        wanted,
    })
}

// The first rule that bank or region `i` at offset `at` breaks.
fn bank_fault(k: u8, i: usize, at: usize, base: u64, size: u64) -> Result<(), Fault>
    requires { at < 0x1000 }
    ensures { result ≡ bank_fault k i at base size }
{
    if base % words::PAGE_SIZE != 0 {
        return found_at(Rule::EntryBase, k, i, at, base, 0);
    }
    if size % words::PAGE_SIZE != 0 {
        return found_at(Rule::EntrySize, k, i, at + 8, size, 0);
    }
    if size == 0 {
        return found_at(Rule::EntryEmpty, k, i, at + 8, size, 0);
    }
    if words::ADDRESS_LIMIT < size {
        return found_at(Rule::EntryEnd, k, i, at + 8, size, 0);
    }
    if words::ADDRESS_LIMIT - size < base {
        return found_at(Rule::EntryEnd, k, i, at + 8, size, 0);
    }
    Ok(())
}

// The first rule that console `i` at offset `at` breaks, on a page of minor `minor`.
fn console_fault(
    minor: u64,
    k: u8,
    i: usize,
    at: usize,
    base: u64,
    pages: u64,
    flags: u64,
) -> Result<(), Fault>
    requires { at < 0x1000 }
    ensures { result ≡ console_fault minor k i at base pages flags }
{
    if base % words::PAGE_SIZE != 0 {
        return found_at(Rule::EntryBase, k, i, at, base, 0);
    }
    if pages == 0 {
        return found_at(Rule::EntryEmpty, k, i, at + 8, pages, 0);
    }
    if 0x100_0000_0000 < pages {
        return found_at(Rule::EntryEnd, k, i, at + 8, pages, 0);
    }
    if words::ADDRESS_LIMIT - words::PAGE_SIZE * pages < base {
        return found_at(Rule::EntryEnd, k, i, at + 8, pages, 0);
    }
    if 4 < minor {
        return Ok(());
    }
    if flags != 0 {
        return found_at(Rule::EntryFlags, k, i, at + 40, flags, 0);
    }
    Ok(())
}

// The first rule that entry `i` of section `k` at offset `at` breaks.
fn entry_fault(page: &[u8], minor: u64, k: u8, i: usize, at: usize) -> Result<(), Fault>
    requires { at < 0x1000 }
    ensures { result ≡ entry_fault minor k i at page.now }
{
    let first = words::word_at(page, at);
    let second = words::word_at(page, at + 8);
    if k == 1 {
        return console_fault(
            minor,
            k,
            i,
            at,
            first,
            second,
            words::word_at(page, at + 40),
        );
    }
    bank_fault(k, i, at, first, second)
}

// The first fault of `count` entries, in order.
// A loop, here and below: as `(0..n).try_for_each(..)` the proof of `sections_fault` stayed open at the first call that fails (`returns`).
fn entries_fault(page: &[u8], minor: u64, k: u8, at: usize, count: usize) -> Result<(), Fault>
    requires { at + size k count ≤ 0x1000 }
    ensures { result ≡ first_of count (entry_of minor k at page.now) }
{
    let step = 8 * entries::entry_words(k as usize);
    let mut from = at;
    for i in 0..count {
        entry_fault(page, minor, k, i, from)?;
        from += step;
    }
    Ok(())
}

// The sum of the `n` words from `at` on, modulo 2^64.
// Also in `entries`: there it asks that the words lie in the page, which a public function may not, and any other answer would be no plainer.
fn sum_words(page: &[u8], at: usize, n: usize) -> u64
    requires { at + 8 * n ≤ 0x1000 }
    ensures { result ≡ sum_at at n page.now % 2 ^ 64 }
{
    let mut sum: u64 = 0;
    let mut from = at;
    for i in 0..n {
        sum = std::num::wrapping_add_u64(sum, words::word_at(page, from));
        from += 8;
    }
    sum
}

// Checks the checksum of section `k`. The fault reports the correct one as `wanted`.
fn check_fault(
    page: &[u8],
    k: u8,
    at: usize,
    count: u64,
    pointer: u64,
    check: u64,
) -> Result<(), Fault>
    requires { at + size k count ≤ 0x1000 }
    ensures { result ≡ check_fault k count pointer check (words_at k count at page.now) }
{
    let n = entries::entry_words(k as usize) * (count as usize);
    let head = std::num::wrapping_add_u64(count, pointer);
    let total = std::num::wrapping_add_u64(head, sum_words(page, at, n));
    let wanted = std::num::wrapping_sub_u64(0, total);
    if check != wanted {
        return found_at(
            Rule::Checksum,
            k,
            0,
            sections::CORE_CHECKSUM + sections::SECTION_BYTES * (k as usize),
            check,
            wanted,
        );
    }
    Ok(())
}

// The first fault of the array of section `k`: its entries in order, then its checksum.
fn array_fault(
    page: &[u8],
    minor: u64,
    k: u8,
    at: usize,
    count: u64,
    pointer: u64,
    check: u64,
) -> Result<(), Fault>
    requires { at + size k count ≤ 0x1000 }
    ensures { result ≡ array_fault minor k count pointer check at page.now }
{
    entries_fault(page, minor, k, at, count as usize)?;
    check_fault(page, k, at, count, pointer, check)
}

// The first rule that section `k` by itself breaks, on a page of minor `minor` read as edition `e`.
fn section_fault(page: &[u8], base: u64, minor: u64, e: Edition, k: u8) -> Result<(), Fault>
    requires { base ≤ 0x10_0000_0000_0000 }
    ensures { result ≡ section_fault minor e.minor base page.now k }
{
    let count = sections::count_at(page, k);
    let pointer = sections::pointer_at(page, k);
    let check = sections::check_at(page, k);
    if sections::is_nothing(count, pointer, check) {
        return Ok(());
    }
    if count == 0 {
        return found_at(
            Rule::EmptySection,
            k,
            0,
            sections::CORE_COUNT + sections::SECTION_BYTES * (k as usize),
            count,
            0,
        );
    }
    if pointer % 8 != 0 {
        return found_at(
            Rule::ArrayPointer,
            k,
            0,
            sections::CORE_POINTER + sections::SECTION_BYTES * (k as usize),
            pointer,
            0,
        );
    }
    if !is_placed(base, e, k, count, pointer) {
        return found_at(
            Rule::ArrayPlace,
            k,
            0,
            sections::CORE_POINTER + sections::SECTION_BYTES * (k as usize),
            pointer,
            0,
        );
    }
    array_fault(
        page,
        minor,
        k,
        (pointer - base) as usize,
        count,
        pointer,
        check,
    )
}

// Whether an array is wholly in [base + core size, base + 4096).
fn is_placed(base: u64, e: Edition, k: u8, count: u64, pointer: u64) -> bool
    requires { base ≤ 0x10_0000_0000_0000 }
    ensures { result ≡ in_range e.minor base k count pointer }
{
    base + e.core_size() <= pointer
        && pointer <= base + words::PAGE_SIZE
        && entries::fits(k as usize, count, base + words::PAGE_SIZE - pointer)
}

// The first fault of the first `n` sections, each by itself.
fn sections_fault(page: &[u8], base: u64, minor: u64, e: Edition, n: u8) -> Result<(), Fault>
    requires { base ≤ 0x10_0000_0000_0000 }
    ensures { result ≡ first_of n (section_fault minor e.minor base page.now) }
{
    for k in 0..n {
        section_fault(page, base, minor, e, k)?;
    }
    Ok(())
}

// The first of `n` arrays that overlaps [from, to). The fault reports `offset`, where the page holds the pointer `from`.
fn clash_fault(
    page: &[u8],
    rule: Rule,
    section: u8,
    offset: usize,
    from: u64,
    to: u64,
    n: u8,
) -> Result<(), Fault>
    ensures { result ≡ first_of n (clash rule section offset from to page.now) }
{
    for j in 0..n {
        if !sections::is_clear(page, from, to, j) {
            return found_at(rule, section, j as usize, offset, from, 0);
        }
    }
    Ok(())
}

// The first overlap of the array of section `i` with one before it.
fn overlap_fault(page: &[u8], i: u8) -> Result<(), Fault>
    requires { end_of i page.now < 0x1_0000_0000_0000_0000 }
    ensures { result ≡ overlap page.now i }
{
    let words = entries::entry_words(i as usize) as u64;
    let from = sections::pointer_at(page, i);
    let to = from + 8 * (words * sections::count_at(page, i));
    clash_fault(
        page,
        Rule::ArrayOverlap,
        i,
        sections::CORE_POINTER + sections::SECTION_BYTES * (i as usize),
        from,
        to,
        i,
    )
}

// The first overlap among the first `n` arrays.
fn overlaps_fault(page: &[u8], n: u8) -> Result<(), Fault>
    requires { (n ≤ 4) × ((k : ℕ) → k < n → end_of k page.now < 0x1_0000_0000_0000_0000) }
    ensures { result ≡ first_of n (overlap page.now) }
{
    for i in 0..n {
        overlap_fault(page, i)?;
    }
    Ok(())
}

// A fault of field `i`, with tag + 256 * length as the word found.
fn field_found(rule: Rule, i: usize, offset: usize, tag: u8, len: usize) -> Result<(), Fault>
    requires { len < 0x1_0000 }
    ensures { result ≡ Err (field_fault rule i offset tag len) }
{
    let found = (tag as u64) + (len as u64) * 0x100;
    found_at(rule, 0, i, offset, found, 0)
}

// The first rule that field `i` breaks. The field is at `at` of the `n` bytes that start at offset `from` of the page.
fn field_fault(
    seen: Seen,
    from: usize,
    i: usize,
    at: usize,
    tag: u8,
    len: usize,
    n: usize,
) -> Result<(), Fault>
    requires { (len < 0x1_0000) × (from ≤ 0x1000) × (at ≤ 0x1000) }
    ensures { result ≡ field_tests seen from i at tag len n }
{
    let offset = from + at;
    if n < at + 3 + len {
        return field_found(Rule::NoEndMark, i, offset, tag, len);
    }
    if tag == 0 {
        if len != 0 {
            return field_found(Rule::FieldTag, i, offset, tag, len);
        }
        return Ok(());
    }
    if !fields::length_ok(tag, len) {
        return field_found(Rule::FieldLength, i, offset, tag, len);
    }
    if seen.has(tag) {
        return field_found(Rule::FieldTwice, i, offset, tag, len);
    }
    Ok(())
}

// The first fault of the fields in order, up to their end mark. `part` starts at offset `from` of the page.
fn fields_fault(part: &[u8], from: usize) -> Result<(), Fault>
    requires { (from ≤ 0x1000) × (length part.now ≤ 0x1000) }
    ensures { result ≡ fields_fault from part.now }
{
    let mut seen = Seen::none();
    let mut at = 0;
    for i in 0..part.len() {
        let tag = words::byte_at(part, at);
        let len = words::u16_at(part, at + 1) as usize;
        field_fault(seen, from, i, at, tag, len, part.len())?;
        if tag == 0 {
            return Ok(());
        }
        seen = seen.with(tag);
        at = at + 3 + len;
    }
    field_found(
        Rule::NoEndMark,
        part.len(),
        from + at,
        words::byte_at(part, at),
        words::u16_at(part, at + 1) as usize,
    )
}

// The first fault of the platform pointer and its fields.
fn plat_fault(page: &[u8], base: u64, e: Edition, plat: u64) -> Result<(), Fault>
    requires { (length page.now ≡ 4096) × (base ≤ 0x10_0000_0000_0000) }
    ensures { result ≡ plat_fault e.minor base plat page.now }
{
    if plat == 0 {
        return Ok(());
    }
    if plat < base + e.core_size() {
        return found_at(Rule::PlatPointer, 0, 0, 8, plat, 0);
    }
    if base + words::PAGE_SIZE <= plat {
        return found_at(Rule::PlatPointer, 0, 0, 8, plat, 0);
    }
    let at = (plat - base) as usize;
    fields_fault(&page[at..], at)
}

// The first overlap, if each section and the fields are good by themselves: of two arrays, then of the fields, which are at [plat, end),
// and an array.
fn overlaps(page: &[u8], plat: u64, end: u64, n: u8) -> Result<(), Fault>
    requires { (n ≤ 4) × ((k : ℕ) → k < n → end_of k page.now < 0x1_0000_0000_0000_0000) }
    ensures { result ≡ first_fault (first_of n (overlap page.now)) (first_of n (clash FieldsOverlap 0 8 plat end page.now)) }
{
    overlaps_fault(page, n)?;
    clash_fault(page, Rule::FieldsOverlap, 0, 8, plat, end, n)
}

// The first fault with code -7 of a page of minor `minor`, read as edition `e`.
fn rules_fault(page: &[u8], base: u64, minor: u64, e: Edition) -> Result<(), Fault>
    requires { place_ok base (length page.now) ≡ true }
    ensures { result ≡ rules_fault minor e.minor base page.now }
{
    let padding = sections::padding_at(page);
    if padding != 0 {
        return found_at(Rule::Padding, 0, 0, 4, padding, 0);
    }
    let plat = words::word_at(page, sections::CORE_PLAT_DATA);
    let Some(taken) = sections::plat_rule(page, base, e) else {
        return plat_fault(page, base, e, plat);
    };
    let n = e.sections();
    sections_fault(page, base, minor, e, n)?;
    overlaps(page, plat, plat + (taken as u64), n)
}

// The first fault that a reader of `edition` finds in a lent page at `base`, in the order of its checks; `Ok` if the page has no fault.
pub fn first_fault(page: &[u8], base: u64, edition: u64) -> Result<(), Fault>
    ensures value { result ≡ fault_of edition base page.now }
    ensures result_value { diagnosis_number result ≡ code_in (read_of edition base page.now) }
{
    if page.len() != words::PAGE_LEN {
        return found_at(Rule::Length, 0, 0, 0, page.len() as u64, words::PAGE_SIZE);
    }
    if !sections::place_ok(base, page.len()) {
        return found_at(Rule::Base, 0, 0, 0, base, 0);
    }
    if !versions::is_edition(edition) {
        return found_at(Rule::Edition, 0, 0, 0, edition, 0);
    }
    let version = sections::version_at(page);
    if !versions::is_accepted(version) {
        return found_at(Rule::Version, 0, 0, 0, version, 0);
    }
    let minor = versions::minor(version);
    rules_fault(page, base, minor, reader::edition_read(edition, minor))
}
