// The manifest writer: checks the description, then makes the page.
#![tactic(auto)]

ghost use Rattle.std.specs.Prelude.{◌≡◌, ◌+◌, ◌*◌, ◌%◌, ◌^◌, ◌<◌, ◌≤◌, length};
ghost use Rattle.words.specs.Tests.{Yes};
ghost use Rattle.words.specs.Word.{bytes_of, splice, laid};
ghost use Rattle.entries.specs.Entry.{sum};
ghost use Rattle.writer_checks.specs.Description.{description_of, lists_of, described, used};
ghost use Rattle.writer_checks.specs.Fast.{totals_of};
ghost use Rattle.writer_rules.specs.Write.{descriptor, plat_word, core_words, page_of, description_fits};
ghost use Rattle.writer_rules.specs.Wrote.{write_lists, made_by, page_after};
ghost use Rattle.writer.specs.Steps.{section_on, arrays_on};

use versions::Edition;
use writer_checks::{Lists, Totals};
pub use writer_rules::WriteError;

// Returns count, pointer and checksum of section `k` with its list at `pointer`; `total` is the sum of its words. Zeros for an empty list.
fn section_words(k: usize, pointer: u64, words: &[u64], total: u64) -> [u64; 3]
    requires { total ≡ sum words.now % 2 ^ 64 }
    ensures { result ≡ descriptor k pointer words.now }
{
    if words.len() == 0 {
        return [0, 0, 0];
    }
    let count = (words.len() / entries::entry_words(k)) as u64;
    let head = std::num::wrapping_add_u64(count, pointer);
    let all = std::num::wrapping_add_u64(head, total);
    [count, pointer, std::num::wrapping_sub_u64(0, all)]
}

// Writes the words of section `k` if the edition has it. Returns the address after its array.
fn put_section(page: &mut [u8], e: Edition, k: u8, pointer: u64, words: &[u64], total: u64) -> u64
    requires { (pointer + 8 * length words.now < 0x1_0000_0000_0000_0000) × (total ≡ sum words.now % 2 ^ 64) }
    ensures { (result ≡ pointer + 8 * length words.now) × (page.new ≡ section_on e.minor k pointer words.now page.old) }
{
    let next = pointer + 8 * (words.len() as u64);
    if e.sections() <= k {
        return next;
    }
    let three = section_words(k as usize, pointer, words, total);
    words::put_words(
        page,
        sections::CORE_COUNT + sections::SECTION_BYTES * (k as usize),
        &three,
    );
    next
}

// Writes an array at offset `at`. Returns the offset after it.
fn put_array(page: &mut [u8], at: usize, words: &[u64]) -> usize
    requires { at + 8 * length words.now < 0x1_0000_0000_0000_0000 }
    ensures { (result ≡ at + 8 * length words.now) × (page.new ≡ laid at (bytes_of words.now) page.old) }
{
    words::put_words(page, at, words);
    at + 8 * words.len()
}

// Writes the fields at offset `at`. Returns the offset after them. Their end mark is part of the zeros that follow.
fn put_fields(page: &mut [u8], at: usize, fields: &[u8]) -> usize
    requires { (at + length fields.now ≤ length page.old) × (length page.old ≡ 4096) }
    ensures { (result ≡ at + length fields.now) × (page.new ≡ laid at fields.now page.old) }
{
    words::copy(&mut page[at..], fields);
    at + fields.len()
}

// The platform pointer: the address after core and arrays, or 0 if there are no fields.
fn plat_pointer(base: u64, e: Edition, lists: Lists, fields: &[u8]) -> u64
    requires { (base ≤ 0x10_0000_0000_0000)
        × (length lists.dram.now + length lists.console.now + length lists.ncoh.now + length lists.coh.now ≤ 512) }
    ensures { result ≡ plat_word base e.minor (described lists.entry fields.now) }
{
    if fields.len() == 0 {
        return 0;
    }
    let count = lists.dram.len() + lists.console.len() + lists.ncoh.len() + lists.coh.len();
    let first = base + e.core_size();
    first + 8 * (count as u64)
}

// Writes the core: version, padding, platform pointer and the words of the sections.
fn put_core(base: u64, e: Edition, totals: Totals, lists: Lists, fields: &[u8], page: &mut [u8])
    requires { (base ≤ 0x10_0000_0000_0000) × (length page.old ≡ 4096)
        × (length lists.dram.now + length lists.console.now + length lists.ncoh.now + length lists.coh.now ≤ 512)
        × (totals ≡ totals_of lists.dram.now lists.console.now lists.ncoh.now lists.coh.now) }
    ensures { page.new ≡ splice 0
        (bytes_of (core_words base e.minor (described lists.entry fields.now)))
        page.old }
{
    let plat = plat_pointer(base, e, lists, fields);
    let head = [e.minor, plat];
    words::put_words(page, 0, &head);
    let first = base + e.core_size();
    let second = put_section(page, e, 0, first, lists.dram, totals.dram);
    let third = put_section(page, e, 1, second, lists.console, totals.console);
    let fourth = put_section(page, e, 2, third, lists.ncoh, totals.ncoh);
    put_section(page, e, 3, fourth, lists.coh, totals.coh);
}

// Writes the arrays after the core, in section order. Returns the offset after them.
fn put_arrays(at: usize, lists: Lists, page: &mut [u8]) -> usize
    requires { (at ≤ 112) × (length lists.dram.now + length lists.console.now + length lists.ncoh.now + length lists.coh.now ≤ 512) }
    ensures { (result ≡ at + 8 * length lists.entry.dram.now + 8 * length lists.entry.console.now
        + 8 * length lists.entry.ncoh.now + 8 * length lists.entry.coh.now)
        × (page.new ≡ arrays_on at (lists_of lists.entry) page.old) }
{
    let second = put_array(page, at, lists.dram);
    let third = put_array(page, second, lists.console);
    let fourth = put_array(page, third, lists.ncoh);
    put_array(page, fourth, lists.coh)
}

// Makes the whole page in address order: core, arrays, fields, then zeros.
fn put_page(base: u64, e: Edition, totals: Totals, lists: Lists, fields: &[u8], page: &mut [u8])
    requires { (base ≤ 0x10_0000_0000_0000) × (length page.old ≡ 4096)
        × (used e.minor (described lists fields.now) ≤ 4096)
        × (totals ≡ totals_of lists.dram.now lists.console.now lists.ncoh.now lists.coh.now) }
    ensures { page.new ≡ page_of base e.minor (described lists.entry fields.now) }
{
    put_core(base, e, totals, lists, fields, page);
    let at = e.core_size() as usize;
    let behind = put_arrays(at, lists, page);
    let end = put_fields(page, behind, fields);
    words::clear(&mut page[end..]);
}

// Writes the manifest of an edition for a base into the lent page: core, arrays and fields, and zero everywhere else. If a check refuses,
// in the order of WR3, the page stays unchanged. The promise that the lists hold 64-bit words is a premise of `written` in demand 3.
// The lists come one by one: tried as `Lists`, and `yes` didn't close, since only of a parameter that is a slice the proof knows that its words fit.
pub fn write(
    base: u64,
    edition: u64,
    dram: &[u64],
    console: &[u64],
    ncoh: &[u64],
    coh: &[u64],
    fields: &[u8],
    page: &mut [u8],
) -> Result<(), WriteError>
    ensures result_after { made_by page.new result
        ≡ write_lists base edition dram.now console.now ncoh.now coh.now fields.now page.old }
    ensures page_after { page.new ≡ page_after page.old
        (write_lists base edition dram.now console.now ncoh.now coh.now fields.now page.old) }
    ensures yes { Yes (description_fits (description_of dram.now console.now ncoh.now coh.now fields.now)) }
{
    if !sections::place_ok(base, page.len()) {
        return Err(WriteError::Place);
    }
    if !versions::is_edition(edition) {
        return Err(WriteError::Edition);
    }
    let lists = Lists {
        dram,
        console,
        ncoh,
        coh,
    };
    let sums = lists.sums(edition);
    let totals = sums.ok_or(WriteError::BadEntry)?;
    if !writer_checks::fields_ok(fields) {
        return Err(WriteError::BadEntry);
    }
    let e = Edition { minor: edition };
    if !lists.later_sections_empty(e) {
        return Err(WriteError::SectionAfterEdition);
    }
    if !lists.room_ok(e, fields) {
        return Err(WriteError::TooLong);
    }
    put_page(base, e, totals, lists, fields, page);
    Ok(())
}
