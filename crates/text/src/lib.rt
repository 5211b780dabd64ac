// The listing's text, written into a lent slice as far as it fits. Each function writes a part at the offset of an `Out` and moves the offset behind
// it, even if that is past the end of the slice: so the last offset is the length of the whole text.
#![tactic(auto)]

ghost use Rattle.reader.specs.Answer.{read_of, refused};
ghost use Rattle.reader.specs.Reading.{refusal_number, shown_as, reading_answer};
ghost use Rattle.field_lookup.specs.Steps.{shown_from};
ghost use Rattle.words.specs.Word.{joined};
ghost use Rattle.text_lines.specs.Text.{word_text, entry_text, count_text, state_text, title_text, section_text, head_text, pointer_text, plat_text, fields_text, listing_of, printed};
ghost use Rattle.text_lines.specs.Laid.{Listed};
ghost use Rattle.text_lines.specs.Steps.{seen, refusal_line, Written};

use fields::FieldStep;
use reader::{Refusal, Section, View};
use text_lines::Out;

// Writes word `j` of an entry of section `k`: a console's name as bytes, any other word in hex.
fn put_word(out: &mut Out, k: usize, j: usize, w: u64)
    ensures { Written (word_text k j w) out.old out.new }
{
    match (k, j) {
        (1, 2) => out.put_name(w),
        _ => out.put_hex(w),
    }
}

// Writes entry `i` of section `k` on a page of that minor: its words and the end of the line. This and the functions that call it take the section,
// not the view, because passing a view costs stack at each level.
// This and the next two loops count: entries, words and sections are looked up by number, and there is no list of them to go over.
fn put_entry(out: &mut Out, page: &[u8], minor: u64, section: Section, k: usize, i: usize)
    ensures { Written (entry_text k (shown_as minor k section page.now) i) out.old out.new }
{
    for j in 0..entries::entry_words(k) {
        out.put_gap(j);
        let w = lookup::word_in(page, minor, section, k, i, j);
        put_word(out, k, j, w);
    }
    out.put_end();
}

// Writes the first `n` entries of section `k`, on a page of that minor.
fn put_entries(out: &mut Out, page: &[u8], minor: u64, section: Section, k: usize, n: usize)
    ensures { Written (joined n (entry_text k (shown_as minor k section page.now))) out.old out.new }
{
    for i in 0..n {
        put_entry(out, page, minor, section, k, i);
    }
}

// Writes the count of section `k` and its entries.
fn put_count(out: &mut Out, page: &[u8], minor: u64, section: Section, k: usize)
    ensures { Written (count_text k (shown_as minor k section page.now)) out.old out.new }
{
    let n = lookup::count_in(page, section, k);
    out.put_decimal(n as u64);
    out.put_end();
    put_entries(out, page, minor, section, k, n);
}

// Writes what follows the name of section `k`: `absent`, or its count and entries.
fn put_state(out: &mut Out, page: &[u8], minor: u64, section: Section, k: usize)
    ensures { Written (state_text k (shown_as minor k section page.now)) out.old out.new }
{
    match section {
        Section::Absent => out.put(b"absent\n"),
        _ => put_count(out, page, minor, section, k),
    }
}

// Writes the name of section `k`.
fn put_title(out: &mut Out, k: usize)
    ensures { Written (title_text k) out.old out.new }
{
    match k {
        0 => out.put(b"dram"),
        1 => out.put(b"console"),
        2 => out.put(b"ncoh"),
        _ => out.put(b"coh"),
    }
}

// Writes section `k`, on a page of that minor.
fn put_section(out: &mut Out, page: &[u8], minor: u64, section: Section, k: usize)
    ensures { Written (section_text (λ i. shown_as minor i section page.now) k) out.old out.new }
{
    put_title(out, k);
    out.put(b" ");
    put_state(out, page, minor, section, k);
}

// Writes the four sections of a view.
fn put_sections(out: &mut Out, page: &[u8], view: View)
    ensures { Written (joined 4 (section_text (seen view page.now))) out.old out.new }
{
    for k in 0..4 {
        let section = reader::section_of(view, k);
        put_section(out, page, view.minor, section, k);
    }
}

// Writes the first line: the version, whose major is 0, and the edition that the page was read as.
fn put_head(out: &mut Out, minor: u64, edition: u64)
    ensures { Written (head_text minor edition) out.old out.new }
{
    out.put(b"manifest 0.");
    out.put_decimal(minor);
    out.put(b" read as ");
    out.put_decimal(edition);
    out.put_end();
}

// Writes the platform pointer, or `none` if it is 0.
fn put_pointer(out: &mut Out, plat: u64)
    ensures { Written (pointer_text plat) out.old out.new }
{
    match plat {
        0 => out.put(b"none"),
        _ => out.put_hex(plat),
    }
}

// Writes the second line: the platform pointer.
fn put_plat(out: &mut Out, plat: u64)
    ensures { Written (plat_text plat) out.old out.new }
{
    out.put(b"platform ");
    put_pointer(out, plat);
    out.put_end();
}

// Writes the fields from cursor `start` on.
fn put_fields(out: &mut Out, page: &[u8], start: usize)
    ensures { Written (fields_text (shown_from start page.now)) out.old out.new }
{
    let mut cursor = start;
    while let FieldStep {
        field: Some(field),
        next,
    } = field_lookup::field_next(page, cursor)
    {
        let value = field_lookup::value_of(page, Some(field));
        field_text::put_field(out, Some(field), value);
        cursor = next;
    }
}

// Writes the listing of an accepted page.
fn put_view(out: &mut Out, page: &[u8], view: View)
    ensures { Written (listing_of (reading_answer page.now (Ok view))) out.old out.new }
{
    put_head(out, view.minor, view.edition);
    put_plat(out, view.plat);
    let start = field_lookup::fields_start(page, view);
    put_fields(out, page, start);
    put_sections(out, page, view);
}

// Writes the line of a code.
fn put_code(out: &mut Out, code: Refusal)
    ensures { Written (listing_of (refused (refusal_number code))) out.old out.new }
{
    match code {
        Refusal::Place => out.put(b"refused -5\n"),
        Refusal::Version => out.put(b"refused -6\n"),
        Refusal::Rules => out.put(b"refused -7\n"),
    }
}

// Writes the line of a reading that refuses; nothing for an accepted one.
fn put_refused(out: &mut Out, reading: Result<View, Refusal>)
    ensures { Written (refusal_line reading) out.old out.new }
{
    match reading {
        Ok(_) => {}
        Err(code) => put_code(out, code),
    }
}

// Writes the listing of what a reader answers. `let .. else` is the form that the project names for it (docs/DECISIONS.md, "Forms").
fn put_reading(out: &mut Out, page: &[u8], reading: Result<View, Refusal>)
    ensures { Written (listing_of (reading_answer page.now reading)) out.old out.new }
{
    let Ok(view) = reading else {
        return put_refused(out, reading);
    };
    put_view(out, page, view);
}

// Writes the listing of a page at `base`, read as `edition`, to the start of `out`, as far as it fits; the rest of `out` is unchanged. Returns the
// length of the whole text, which exceeds `out.len()` if it does not fit.
pub fn list(page: &[u8], base: u64, edition: u64, out: &mut [u8]) -> usize
    ensures { Listed (listing_of (read_of edition base page.now)) out.old result out.new }
{
    let mut text = Out { bytes: out, at: 0 };
    put_reading(&mut text, page, reader::read(page, base, edition));
    text.at
}

// Writes the listing of the program's input: 8 bytes of B, then the page, read as edition 4. Returns the length of the whole text.
pub fn list_input(input: &[u8], out: &mut [u8]) -> usize
    ensures { Listed (printed input.now) out.old result out.new }
{
    if input.len() != 4104 {
        let mut text = Out { bytes: out, at: 0 };
        put_code(&mut text, Refusal::Place);
        return text.at;
    }
    list(&input[8..], words::word_at(input, 0), 4, out)
}
