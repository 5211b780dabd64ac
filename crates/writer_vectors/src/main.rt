// Writes the manifests of the numbered cases of data/, in turn, up to the first number without a case. A case is 8-byte words: B, edition,
// the byte that fills the page, the page's length, the number of words of each of the four lists, the lists; then the page
// expected at exit, and in the remaining bytes the fields. Prints the answer, whether the page is as expected, and what readers of the four
// editions show of a written page.
#![tactic(auto)]

ghost use Rattle.std.specs.Prelude.{◌≤◌, length};

use vector_io::STDOUT;
use words::Span;
use writer::WriteError;

// The words of a case.
fn load(input: &[u8]) -> [u64; 4096] {
    let mut list = [0u64; 4096];
    for (i, word) in list.iter_mut().enumerate() {
        *word = words::word_at(input, 8 * i);
    }
    list
}

fn filled(byte: u8) -> [u8; 8192] {
    [byte; 8192]
}

// The number of a refusal. No From: both types would be of other crates.
fn number(refusal: WriteError) -> u64 {
    match refusal {
        WriteError::Place => 1,
        WriteError::Edition => 2,
        WriteError::BadEntry => 3,
        WriteError::SectionAfterEdition => 4,
        WriteError::TooLong => 5,
    }
}

// Prints what a reader of `edition` shows of a page.
fn print_reading(page: &[u8], base: u64, edition: u64) {
    let mut out = [0u8; 16384];
    let n = text::list(page, base, edition, &mut out);
    io::write_all(STDOUT, b"edition ");
    io::print_decimal(STDOUT, edition);
    io::write_all(STDOUT, b"\n");
    io::write_all(STDOUT, &out[..n]);
}

// Prints the answer, whether the page is as expected, and, if it was written, what the four editions show of it.
fn print_page(answer: Result<(), WriteError>, base: u64, page: &[u8], expected: &[u8]) {
    if let Err(refusal) = answer {
        io::write_all(STDOUT, b"refused W");
        io::print_decimal(STDOUT, number(refusal));
        io::write_all(STDOUT, b"\n");
        vector_io::print_same(b"page", page, expected);
        return;
    }
    io::write_all(STDOUT, b"made\n");
    vector_io::print_same(b"page", page, expected);
    for edition in [1, 2, 3, 4] {
        print_reading(page, base, edition);
    }
}

// Writes the lists of a case, one after another in `list`, to a page filled with the case's byte, and prints the result.
fn print_written(input: &[u8], list: &[u64], page: &mut [u8])
    requires { 4096 ≤ length list.now }
{
    let a = 8 + vector_io::length_at(input, 32, 600);
    let b = a + vector_io::length_at(input, 40, 600);
    let c = b + vector_io::length_at(input, 48, 600);
    let d = c + vector_io::length_at(input, 56, 600);
    let base = list[0];
    let rest = vector_io::behind(input, 8 * d);
    let fields = vector_io::behind(rest, page.len());
    let answer = writer::write(
        base,
        list[1],
        &list[8..a],
        &list[a..b],
        &list[b..c],
        &list[c..d],
        fields,
        page,
    );
    let expected = Span {
        at: 0,
        len: page.len(),
    };
    print_page(answer, base, page, words::part_of(rest, expected));
}

fn print_case(input: &[u8]) {
    let list = load(input);
    let mut room = filled((list[2] % 256) as u8);
    let n = vector_io::length_at(input, 24, 8192);
    print_written(input, &list, &mut room[..n]);
}

// This program, as `vector_io::each_case` takes it.
struct Program;

impl vector_io::CaseProgram for Program {
    fn show(&self, case: &mut [u8]) {
        print_case(case);
    }
}

fn main(rt: HostRuntime) {
    let mut input = [0u8; 32768];
    vector_io::each_case(&rt, &mut input, &Program);
}
