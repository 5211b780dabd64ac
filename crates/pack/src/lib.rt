// The packer: writes what a reader of edition 4 shows of a page into another lent page, without holes. Arrays and fields are copied once, from page to
// page. Count, pointer and platform pointer are those of the core that the reader judged, never read from the page again: so every access stays within
// the page and the target, even if another CPU writes the page during the call.
#![tactic(auto)]

ghost use Rattle.std.specs.Prelude.{◌≡◌, ℕ, ◌+◌, ◌*◌, ◌<◌, ◌≤◌, length, if◌then◌else◌, nat_eq, slice_index};
ghost use Rattle.words.specs.Word.{bytes_of, joined, splice};
ghost use Rattle.versions.specs.Edition.{section_count};
ghost use Rattle.entries.specs.Entry.{size};
ghost use Rattle.sections.specs.Page.{count_at, pointer_at};
ghost use Rattle.sections.specs.Steps.{Copied};
ghost use Rattle.writer_checks.specs.Description.{used};
ghost use Rattle.writer_rules.specs.Write.{descriptor, page_of};
ghost use Rattle.pack.specs.Pack.{pack_of, packed_by, target_after, packing_number};
ghost use Rattle.pack.specs.declared.PackError.TheVariants.{Refused};
ghost use Rattle.pack.specs.Steps.{array_words_in, Movable, section_moved, fields_place, kept_from, shown_description_at};

use fields::FieldPlace;
use reader::Refusal;
use versions::Edition;

// Why no page was made: the reader's refusal of the page, or `Target` if the target is not 4,096 bytes long (W1).
#[derive(Clone, Copy)]
pub enum PackError {
    Refused(Refusal),
    Target,
}

impl From<Refusal> for PackError {
    ghost from_gives = { λ code error. error ≡ Refused code };

    fn from(code: Refusal) -> PackError {
        PackError::Refused(code)
    }
}

// The number of an answer: 0 for a page, the reader's code, or 1 for the target.
pub fn number(packing: Result<(), PackError>) -> i32
    ensures { result ≡ packing_number packing }
{
    match packing {
        Ok(()) => 0,
        Err(PackError::Refused(code)) => i32::from(code),
        Err(PackError::Target) => 1,
    }
}

// Writes `bytes` at offset `at`. Returns the offset after them. They fit unless another CPU lets a field grow after it was judged: then writes nothing
// and returns the target's end.
fn put_bytes(target: &mut [u8], at: usize, bytes: &[u8]) -> usize
    requires { (at + length bytes.now ≤ length target.old) × (length target.old ≡ 4096) }
    ensures { (result ≡ at + length bytes.now) × (target.new ≡ splice at bytes.now target.old) }
{
    if target.len() - at < bytes.len() {
        return target.len();
    }
    words::copy_by_words(&mut target[at..], bytes);
    at + bytes.len()
}

// The size of the array of section `k` in bytes, given its count.
fn array_size(k: u8, count: u64) -> usize
    requires { size k count ≤ 4096 }
    ensures { (result ≡ size k count) × (result ≤ 4096) }
{
    let words = entries::entry_words(k as usize);
    8 * (words * (count as usize))
}

// The array of section `k`, given its count and pointer, as a slice of the page.
fn array_of(page: &[u8], k: u8, count: u64, pointer: u64) -> &[u8]
    requires { (Movable page.now k) × (length page.now ≡ 4096) × (count ≡ count_at k page.now) × (pointer ≡ pointer_at k page.now) }
    ensures { result.now ≡ bytes_of (array_words_in page.now k) }
{
    let at = (pointer % words::PAGE_SIZE) as usize;
    let end = at + array_size(k, count);
    &page[at..end]
}

// Returns count, pointer and checksum of section `k` with its array moved to `pointer`; zeros for an empty section. Its words stay the same, so the
// checksum changes only by the difference of the pointers. `core`, here and below, is the core that was judged; `page` only serves the promise.
fn section_words(page: &[u8], core: &[u8], k: u8, pointer: u64) -> [u64; 3]
    requires { (Movable page.now k) × (Copied core.now page.now) × (k < 4) }
    ensures { result ≡ descriptor k pointer (array_words_in page.now k) }
{
    let count = sections::count_at(core, k);
    if count == 0 {
        return [0, 0, 0];
    }
    let moved = std::num::wrapping_sub_u64(pointer, sections::pointer_at(core, k));
    let check = std::num::wrapping_sub_u64(sections::check_at(core, k), moved);
    [count, pointer, check]
}

// Writes the words of the first `n` sections; their arrays follow one another from address `first`.
// A loop: `pointer` goes on from section to section, and a `fold` whose closure writes to `target` would be no plainer.
fn put_sections(page: &[u8], core: &[u8], first: u64, n: u8, target: &mut [u8])
    requires { (length page.now ≡ 4096) × (length target.old ≡ 4096) × (n ≤ 4) × ((k : ℕ) → k < n → Movable page.now k)
        × (Copied core.now page.now) × (first + 8 * length (joined n (array_words_in page.now)) < 0x1_0000_0000_0000_0000) }
    ensures { target.new ≡ splice 16 (bytes_of (joined n (section_moved first page.now))) target.old }
{
    let mut pointer = first;
    for k in 0..n {
        let three = section_words(page, core, k, pointer);
        words::put_words(
            target,
            sections::CORE_COUNT + sections::SECTION_BYTES * (k as usize),
            &three,
        );
        pointer += array_size(k, sections::count_at(core, k)) as u64;
    }
}

// Copies the arrays of the first `n` sections, one after another from offset `from`. Returns the offset after them.
// A loop, as in `put_sections`.
fn put_arrays(page: &[u8], core: &[u8], from: usize, n: u8, target: &mut [u8]) -> usize
    requires { (length page.now ≡ 4096) × (length target.old ≡ 4096) × (n ≤ 4) × ((k : ℕ) → k < n → Movable page.now k)
        × (Copied core.now page.now) × (from + 8 * length (joined n (array_words_in page.now)) ≤ 4096) }
    ensures { (result ≡ from + 8 * length (joined n (array_words_in page.now)))
        × (target.new ≡ splice from (bytes_of (joined n (array_words_in page.now))) target.old) }
{
    let mut at = from;
    for k in 0..n {
        let count = sections::count_at(core, k);
        let pointer = sections::pointer_at(core, k);
        at = put_bytes(target, at, array_of(page, k, count, pointer));
    }
    at
}

// The offset of the fields; the length of the page if it has no platform pointer.
fn fields_place(page: &[u8], core: &[u8]) -> usize
    requires { Copied core.now page.now }
    ensures { result ≡ fields_place page.now }
{
    let plat = words::word_at(core, sections::CORE_PLAT_DATA);
    if plat == 0 {
        return page.len();
    }
    (plat % words::PAGE_SIZE) as usize
}

// Copies the fields that start at `from` in the page to offset `at` of the target, without the withdrawn ones. Returns the offset after them. Copies
// in runs: the bytes from `run` to the cursor are not copied yet.
fn put_fields(page: &[u8], from: usize, at: usize, target: &mut [u8]) -> usize
    requires { (length page.now ≡ 4096) × (length target.old ≡ 4096) × (from ≤ 4096) × (at + length (kept_from from page.now) ≤ 4096) }
    ensures { (result ≡ at + length (kept_from from page.now)) × (target.new ≡ splice at (kept_from from page.now) target.old) }
{
    let mut run = from;
    let mut cursor = from;
    let mut to = at;
    loop {
        let step = fields::step_at(page, cursor);
        match step.field {
            None => return put_bytes(target, to, &page[run..cursor]),
            Some(FieldPlace::Withdrawn) => {
                to = put_bytes(target, to, &page[run..cursor]);
                run = step.next;
            }
            Some(
                FieldPlace::Raw {
                    tag: _,
                    at: _,
                    len: _,
                },
            ) => {}
        }
        cursor = step.next;
    }
}

// The platform pointer: the address of the fields, or 0 if there are none.
fn plat_pointer(base: u64, at: usize, end: usize) -> u64
    requires { (base ≤ 0x10_0000_0000_0000) × (at ≤ 4096) }
    ensures { result ≡ (if nat_eq at end then 0 else base + at) }
{
    if at == end {
        return 0;
    }
    base + (at as u64)
}

// Makes the whole page from one of minor `e`: sections, arrays, fields, version, platform pointer, then zeros.
fn put_page(page: &[u8], core: &[u8], base: u64, e: Edition, target: &mut [u8])
    requires { (length page.now ≡ 4096) × (length target.old ≡ 4096) × (base ≤ 0x10_0000_0000_0000) × (Copied core.now page.now)
        × ((k : ℕ) → k < section_count e.minor → Movable page.now k) × (used e.minor (shown_description_at e.minor page.now) ≤ 4096) }
    ensures { target.new ≡ page_of base e.minor (shown_description_at e.minor page.now) }
{
    let size = e.core_size();
    let n = e.sections();
    put_sections(page, core, base + size, n, target);
    let behind = put_arrays(page, core, size as usize, n, target);
    let end = put_fields(page, fields_place(page, core), behind, target);
    let head = [e.minor, plat_pointer(base, behind, end)];
    words::put_words(target, 0, &head);
    words::clear(&mut target[end..]);
}

// Packs the page at `base` into a target for the same base: what a reader of edition 4 shows, at the page's own minor, without holes and without
// withdrawn fields. The target stays unchanged if the reader refuses the page, if its minor is 5 or above, or if the target is not 4,096 bytes long.
pub fn pack(page: &[u8], base: u64, target: &mut [u8]) -> Result<(), PackError>
    ensures result_after { packed_by target.new result ≡ pack_of base (length target.old) page.now }
    ensures target_after { target.new ≡ target_after target.old (pack_of base (length target.old) page.now) }
    ensures by_index { (i : ℕ) → slice_index page.now i < 256 }
{
    let mut core = [0u8; 112];
    let minor = reader::judge(page, base, 4, &mut core)?;
    if 4 < minor {
        return Err(PackError::Refused(Refusal::Version));
    }
    if target.len() != words::PAGE_LEN {
        return Err(PackError::Target);
    }
    put_page(page, &core, base, Edition { minor }, target);
    Ok(())
}
