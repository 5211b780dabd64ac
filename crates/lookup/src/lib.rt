// Lookups in a page's sections (RD12): an array as a part of the lent page, its number of entries, each word of an entry, and a console by
// its name.
#![tactic(auto)]

ghost use Rattle.std.specs.Prelude.{◌≡◌, length};
ghost use Rattle.words.specs.Word.{spanned, span_start, on_from};
ghost use Rattle.reader.specs.Answer.{look_in, look_of, count_in, word_in, read_of};
ghost use Rattle.reader.specs.Reading.{section_of, reading_answer};
ghost use Rattle.entries.specs.Fast.{is_hidden};
ghost use Rattle.lookup.specs.Lookup.{span_of, span_in};
ghost use Rattle.lookup.specs.Fast.{count_of, word_of};
ghost use Rattle.lookup.specs.Consoles.{console_named};

use reader::{Section, View};
use words::Span;

// Offset of the name in a console's entry.
const CONSOLE_NAME_AT: usize = 16;

// The span of an array without entries.
const EMPTY: Span = Span { at: 0, len: 0 };

// The span of `count` entries of section `k` at `at` in a page of `room` bytes; empty if they are not within the page.
fn place_at(room: usize, k: usize, at: usize, count: usize) -> Span
    ensures { result ≡ span_of k (Section.Entries at count) room }
{
    if room < at || !entries::fits(k, count as u64, (room - at) as u64) {
        return EMPTY;
    }
    words::span_at(at, 8 * (entries::entry_words(k) * count))
}

// The span of a section's array in a page of `room` bytes; empty if the section has no entries.
pub fn place_in(room: usize, section: Section, k: usize) -> Span
    ensures { result ≡ span_of k section room }
{
    match section {
        Section::Absent | Section::Empty => EMPTY,
        Section::Entries { at, count } => place_at(room, k, at, count),
    }
}

// The span of the array of section `k` of a view. Empty if the section is absent or empty or `k` is above 3; also for a hand-written view
// whose entries are not within the page (RD15).
pub fn place_of(page: &[u8], view: View, k: usize) -> Span
    ensures value { result ≡ span_of k (section_of view k) (length page.now) }
    ensures page_value { spanned result page.now ≡ look_in (reading_answer page.now (Ok view)) k }
{
    place_in(page.len(), reader::section_of(view, k), k)
}

// The array of section `k` of a view, as a part of the page itself; empty if the section has no entries.
pub fn array_of(page: &[u8], view: View, k: usize) -> &[u8]
    ensures result_value { result.now ≡ look_in (reading_answer page.now (Ok view)) k }
    ensures ref_ptr_value { result.ref_ptr ≡ on_from page.entry.ref_ptr (span_of k (section_of view k) (length page.now)).at }
{
    words::part_of(page, place_of(page, view, k))
}

// The number of entries of a section; 0 if its array is empty.
pub fn count_in(page: &[u8], section: Section, k: usize) -> usize
    ensures { result ≡ count_of k section page.now }
{
    let array = words::part_of(page, place_in(page.len(), section, k));
    array.len() / (8 * entries::entry_words(k))
}

// The number of entries of section `k` of a view.
pub fn count_of(page: &[u8], view: View, k: usize) -> usize
    ensures { result ≡ count_in (reading_answer page.now (Ok view)) k }
{
    count_in(page, reader::section_of(view, k), k)
}

// Whether word `j` of an entry is shown as 0: the flags of a console, from minor 5 on (RD11).
fn is_hidden(minor: u64, k: usize, j: usize) -> bool
    ensures { result ≡ is_hidden minor k j }
{
    k == 1 && j == 5 && 4 < minor
}

// Word `j` of entry `i`, unchanged, of `count` entries of section `k` at `at`; 0 if there is no such word. This is what a page of minor 0
// shows.
fn word_at(page: &[u8], k: usize, at: usize, count: usize, i: usize, j: usize) -> u64
    ensures { result ≡ word_of 0 k i j (Section.Entries at count) page.now }
{
    let step = entries::entry_words(k);
    if step <= j || count <= i {
        return 0;
    }
    if page.len() < at || !entries::fits(k, count as u64, (page.len() - at) as u64) {
        return 0;
    }
    words::word_at(page, at + 8 * (step * i + j))
}

// Word `j` of entry `i` of a section `k`, on a page of minor `minor`; 0 if there is no such entry or word.
pub fn word_in(page: &[u8], minor: u64, section: Section, k: usize, i: usize, j: usize) -> u64
    ensures { result ≡ word_of minor k i j section page.now }
{
    if is_hidden(minor, k, j) {
        return 0;
    }
    match section {
        Section::Absent | Section::Empty => 0,
        Section::Entries { at, count } => word_at(page, k, at, count, i, j),
    }
}

// Word `j` of entry `i` of section `k` of a view, all numbered from 0; 0 if there is no such entry or word.
pub fn word_of(page: &[u8], view: View, k: usize, i: usize, j: usize) -> u64
    ensures { result ≡ word_in (reading_answer page.now (Ok view)) k i j }
{
    word_in(page, view.minor, reader::section_of(view, k), k, i, j)
}

// The index of the first console of a view whose 8 bytes of name equal `name`, if any. The caller pads a shorter name with zeros.
pub fn find_console(page: &[u8], view: View, name: &[u8; 8]) -> Option<usize>
    ensures { result ≡ console_named (reading_answer page.now (Ok view)) name.now }
{
    let wanted = words::word_at(name, 0);
    array_of(page, view, 1)
        .chunks_exact(entries::CONSOLE_LEN)
        .position(|console| words::whole_word(console, CONSOLE_NAME_AT) == wanted)
}

// The span of the array of section `k` in a page at `base`, as a reader of `edition` finds it. Empty if the page is refused or the section
// has no entries.
pub fn place(page: &[u8], base: u64, edition: u64, k: usize) -> Span
    ensures value { result ≡ span_in base page.now (read_of edition base page.now) k }
    ensures page_value { spanned result page.now ≡ look_of edition base page.now k }
{
    place_in(page.len(), reader::section_read(page, base, edition, k), k)
}

// The array lookup: the array of section `k`, as a part of the page itself.
pub fn array(page: &[u8], base: u64, edition: u64, k: usize) -> &[u8]
    ensures result_value { result.now ≡ look_of edition base page.now k }
    ensures ref_ptr_value { result.ref_ptr ≡ on_from page.entry.ref_ptr (span_in base page.now (read_of edition base page.now) k).at }
{
    words::part_of(page, place(page, base, edition, k))
}
