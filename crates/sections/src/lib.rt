// The rules of a manifest page, read in place: base and length, padding, the platform pointer with its fields, each section by itself, and
// that no two arrays overlap, nor the fields and an array.
#![tactic(auto)]

ghost use Rattle.std.specs.Prelude.{true, cond, None, ◌≡◌, ℕ, ◌+◌, ◌≤◌, ◌<◌, length};
ghost use Rattle.words.specs.Tests.{both};
ghost use Rattle.versions.specs.Edition.{core};
ghost use Rattle.sections.specs.Page.{place_ok, version_at, padding_at, count_at, pointer_at, check_at, found_at, page_platform, platform_at};
ghost use Rattle.sections.specs.Section.{nothing, rules_at};
ghost use Rattle.sections.specs.Steps.{Copied, plat_end, ok_at, ok_to, end_of, apart_to, clear_at, clear_from, stays_at};

use versions::Edition;

// Offsets in the core: version and padding, 4 bytes each, and the pointer to the fields, 8 bytes.
const CORE_VERSION: usize = 0;

pub const CORE_PADDING: usize = 4;

pub const CORE_PLAT_DATA: usize = 8;

// Offsets of the three words of section 0, and the distance in bytes from a section to the next.
pub const CORE_COUNT: usize = 16;

pub const CORE_POINTER: usize = 24;

pub const CORE_CHECKSUM: usize = 32;

pub const SECTION_BYTES: usize = 24;

// Whether a page of `n` bytes at `base` can hold a manifest (P1, P2).
pub fn place_ok(base: u64, n: usize) -> bool
    ensures { result ≡ place_ok base n }
{
    n == words::PAGE_LEN && base != 0 && base % words::PAGE_SIZE == 0 && base <= words::BASE_MOST
}

// The version: 4 bytes at offset 0.
pub fn version_at(page: &[u8]) -> u64
    ensures { result ≡ version_at page.now }
{
    words::u32_at(page, CORE_VERSION)
}

// The padding: 4 bytes at offset 4.
pub fn padding_at(page: &[u8]) -> u64
    ensures { result ≡ padding_at page.now }
{
    words::u32_at(page, CORE_PADDING)
}

// The count of section `k`.
pub fn count_at(page: &[u8], k: u8) -> u64
    ensures { result ≡ count_at k page.now }
{
    words::word_at(page, CORE_COUNT + SECTION_BYTES * (k as usize))
}

// The pointer of section `k`.
pub fn pointer_at(page: &[u8], k: u8) -> u64
    ensures { result ≡ pointer_at k page.now }
{
    words::word_at(page, CORE_POINTER + SECTION_BYTES * (k as usize))
}

// The checksum of section `k`.
pub fn check_at(page: &[u8], k: u8) -> u64
    ensures { result ≡ check_at k page.now }
{
    words::word_at(page, CORE_CHECKSUM + SECTION_BYTES * (k as usize))
}

// The rule of the platform pointer and its fields, on a page read as edition `e` (R2, F1 to F4): the number of bytes of the fields through
// their end mark, 0 without a pointer, or `None` if it is broken. `size`, here and below, is the core size of `e`, which the caller computes once.
fn plat_end(page: &[u8], base: u64, e: Edition, size: u64, plat: u64) -> Option<usize>
    requires { (length page.now ≡ 4096) × (base ≤ 0x10_0000_0000_0000) × (size ≡ core e.minor) × (size ≤ 112) }
    ensures { result ≡ plat_end e.minor base (page_platform plat (found_at base page.now plat)) }
{
    if plat == 0 {
        return Some(0);
    }
    if plat < base + size {
        return None;
    }
    if base + words::PAGE_SIZE <= plat {
        return None;
    }
    let at = (plat - base) as usize;
    fields::scan_at(page, at)
}

// Whether the three words of a section are 0.
pub fn is_nothing(count: u64, pointer: u64, check: u64) -> bool
    ensures { result ≡ nothing count pointer check }
{
    count == 0 && pointer == 0 && check == 0
}

// Whether section `k` by itself keeps its rule, on a page of minor `minor` read as edition `e`; `count`, `pointer` and `check` are its three
// words. `array_ok` checks that the array ends within the page.
fn section_ok(
    page: &[u8],
    base: u64,
    minor: u64,
    e: Edition,
    size: u64,
    k: u8,
    count: u64,
    pointer: u64,
    check: u64,
) -> bool
    requires { (length page.now ≡ 4096) × (base ≤ 0x10_0000_0000_0000) × (size ≡ core e.minor) × (size ≤ 112)
        × (count ≡ count_at k page.now) × (pointer ≡ pointer_at k page.now) × (check ≡ check_at k page.now) }
    ensures { result ≡ ok_at minor e.minor base k page.now }
{
    if is_nothing(count, pointer, check) {
        return true;
    }
    if pointer < base + size {
        return false;
    }
    let at = (pointer - base) as usize;
    entries::array_ok(page, minor, k as usize, at, count, pointer, check)
}

// Whether each of the first `n` sections keeps its rule by itself. `copied`, here and below, is the copy of the page's core
// that `judge` made.
fn sections_ok(
    page: &[u8],
    copied: &[u8],
    base: u64,
    minor: u64,
    e: Edition,
    size: u64,
    n: u8,
) -> bool
    requires { (length page.now ≡ 4096) × (Copied copied.now page.now) × (base ≤ 0x10_0000_0000_0000)
        × (size ≡ core e.minor) × (size ≤ 112) × (n ≤ 4) }
    ensures { result ≡ ok_to minor e.minor base n page.now }
{
    (0..n).all(
        |k|
            requires { (length page.now ≡ 4096) × (Copied copied.now page.now) × (base ≤ 0x10_0000_0000_0000)
                × (size ≡ core e.minor) × (size ≤ 112) × (k < 4) }
        {
            let count = count_at(copied, k);
            let pointer = pointer_at(copied, k);
            let check = check_at(copied, k);
            section_ok(page, base, minor, e, size, k, count, pointer, check)
        },
    )
}

// The address after the array of section `k`.
fn end_of(page: &[u8], k: u8) -> u64
    requires { end_of k page.now < 0x1_0000_0000_0000_0000 }
    ensures { result ≡ end_of k page.now }
{
    let words = entries::entry_words(k as usize) as u64;
    pointer_at(page, k) + 8 * (words * count_at(page, k))
}

// Whether [from, to) misses the array of section k. Its end, pointer + size, may exceed 2^64.
pub fn is_clear(page: &[u8], from: u64, to: u64, k: u8) -> bool
    ensures { result ≡ clear_at from to k page.now }
{
    let pointer = pointer_at(page, k);
    to <= pointer || pointer <= from && entries::fits(k as usize, count_at(page, k), from - pointer)
}

// Whether no two of the first `n` arrays overlap (S5). Compares the pairs in turn, up to the first overlap, and reads section `i` once for
// all its pairs. An empty section has pointer and count 0 and overlaps none.
// Loops with a label: docs/DECISIONS.md, "Forms", names this form for this function.
fn all_apart(page: &[u8], n: u8) -> bool
    requires { (n ≤ 4) × ((k : ℕ) → k < n → end_of k page.now < 0x1_0000_0000_0000_0000) }
    ensures { result ≡ apart_to n page.now }
{
    let mut ok = true;
    'pairs: for i in 0..n {
        let from = pointer_at(page, i);
        let to = end_of(page, i);
        for j in 0..i {
            if !is_clear(page, from, to, j) {
                ok = false;
                break 'pairs;
            }
        }
    }
    ok
}

// Whether [from, to) misses the first `n` arrays. If `to` is 0 there is nothing to compare: no fields without a pointer.
fn all_clear(page: &[u8], from: u64, to: u64, n: u8) -> bool
    ensures { result ≡ clear_from from to n page.now }
{
    to == 0 || (0..n).all(|k| is_clear(page, from, to, k))
}

// Whether a page of minor `minor`, read as edition `e`, keeps R1, R2 and all rules of its fields and sections (-7).
fn rules_ok(page: &[u8], copied: &[u8], base: u64, minor: u64, e: Edition) -> bool
    requires { (length page.now ≡ 4096) × (Copied copied.now page.now) × (base ≤ 0x10_0000_0000_0000) }
    ensures { result ≡ rules_at minor e.minor base page.now }
{
    let size = e.core_size();
    if padding_at(page) != 0 {
        return false;
    }
    let plat = words::word_at(copied, CORE_PLAT_DATA);
    let Some(taken) = plat_end(page, base, e, size, plat) else {
        return false;
    };
    let n = e.sections();
    if !sections_ok(page, copied, base, minor, e, size, n) {
        return false;
    }
    if !all_apart(copied, n) {
        return false;
    }
    let end = plat + (taken as u64);
    all_clear(copied, plat, end, n)
}

// Copies the page's platform pointer and the words of its four sections, bytes 8 to 111, to their place in `core`: the one place where
// `judge` loads them from the page. From byte 8 on, because the version is loaded before: then each word lies in one 16-byte store of the
// copy and is loaded again without waiting for two.
fn copy_core(page: &[u8], core: &mut [u8])
    requires { (length page.now ≡ 4096) × (length core.old ≡ 112) }
    ensures { Copied core.new page.now }
{
    words::copy(&mut core[8..], &page[8..112]);
}

// Whether a page of minor `minor`, read as edition `e`, has a good base and length and keeps all rules of its contents. A caller takes
// count, pointer and platform pointer from `core` and so uses what was judged, even if another CPU writes the page during the call.
pub fn judge(page: &[u8], base: u64, minor: u64, e: Edition, core: &mut [u8; 112]) -> bool
    ensures value { result ≡ both (place_ok base (length page.now)) (rules_at minor e.minor base page.now) }
    ensures copied { result ≡ true → Copied core.new page.now }
{
    if !place_ok(base, page.len()) {
        return false;
    }
    copy_core(page, core);
    rules_ok(page, core, base, minor, e)
}

// The rule of the platform pointer and its fields alone: the number of bytes of the fields, or `None` if it is broken, also if
// base or length is bad.
pub fn plat_rule(page: &[u8], base: u64, e: Edition) -> Option<usize>
    ensures { result ≡ cond (place_ok base (length page.now)) (plat_end e.minor base (platform_at base page.now)) None }
{
    if !place_ok(base, page.len()) {
        return None;
    }
    plat_end(
        page,
        base,
        e,
        e.core_size(),
        words::word_at(page, CORE_PLAT_DATA),
    )
}

// Whether section `k` keeps its rule by itself, and its array misses the arrays of the sections before it and [from, to).
pub fn keeps_section(
    page: &[u8],
    base: u64,
    minor: u64,
    e: Edition,
    k: u8,
    from: u64,
    to: u64,
) -> bool
    ensures { result ≡ both (place_ok base (length page.now)) (stays_at minor e.minor base k from to page.now) }
{
    if !place_ok(base, page.len()) {
        return false;
    }
    let count = count_at(page, k);
    let pointer = pointer_at(page, k);
    let check = check_at(page, k);
    if !section_ok(
        page,
        base,
        minor,
        e,
        e.core_size(),
        k,
        count,
        pointer,
        check,
    ) {
        return false;
    }
    let end = end_of(page, k);
    if !all_clear(page, pointer, end, k) {
        return false;
    }
    is_clear(page, from, to, k)
}
