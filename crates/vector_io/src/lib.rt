// Loads the numbered case files of a test program (c000, c001, ..), and reads and prints what the test programs have in common.
#![tactic(auto)]

mod descriptor;

ghost use Rattle.std.specs.Prelude.{◌≡◌, min, ◌≤◌, ◌<◌, drop};
ghost use Rattle.io.specs.Counts.{IsPrefixLen};
ghost use Rattle.std.specs.Str.{IsUtf8};
ghost use Rattle.words.specs.Word.{word_at};
ghost use Rattle.vector_io.specs.Cases.{record_at, same_bytes, granules_at, words_from, read_into, fill_into, mark_of};

use boot::{Params, Record};
pub use descriptor::STDOUT;
use std::fs::File;
use std::os::fd::AsRawFd;
use std::rt::Files;
use words::Span;

// The last decimal digit of n, in ASCII.
fn digit(n: u64) -> u8
    ensures { result < 128 }
{
    48 + (n % 10) as u8
}

// Opens the file of that name in the current folder; none if it cannot be opened.
fn open_case(rt: &impl Files<File = File>, name: &[u8]) -> Option<File>
    requires { IsUtf8 name.now }
{
    File::open(rt, unsafe { str::from_utf8_unchecked(name) }).ok()
}

// Reads the bytes of case `n` to the start of `input`, as many as fit, and prints its number. Returns the number of bytes read, 0 if there
// is no such case. The contents come from a file, so nothing is promised about them.
pub fn load(rt: &impl Files<File = File>, n: u64, input: &mut [u8]) -> usize
    ensures { IsPrefixLen result input.new }
{
    let name = [b'c', digit(n / 100), digit(n / 10), digit(n)];
    let Some(file) = open_case(rt, &name) else {
        return 0;
    };
    let length = io::read_full(file.as_raw_fd(), input);
    io::write_all(STDOUT, b"case ");
    io::write_all(STDOUT, &name[1..]);
    io::write_all(STDOUT, b"\n");
    length
}

// A test program, by what it does with one case.
pub trait CaseProgram {
    // Calls the kit as `case` says, and prints what comes of it. `case` may be used as room.
    fn show(&self, case: &mut [u8]);
}

// Gives `program` the bytes of each case in turn, c000 first, up to the first number without a case. `input` holds one case at a time.
pub fn each_case(rt: &impl Files<File = File>, input: &mut [u8], program: &impl CaseProgram) {
    // Counted: `n` is the number in a file's name, and no list holds the files.
    for n in 0..1000u64 {
        let length = load(rt, n, input);
        if length == 0 {
            return;
        }
        program.show(&mut input[..length]);
    }
}

// min(the word at offset `at`, most).
pub fn length_at(input: &[u8], at: usize, most: usize) -> usize
    ensures { (result ≡ min (word_at at input.now) most) × (result ≤ most) }
{
    words::word_at(input, at).min(most as u64) as usize
}

// The bytes from offset `at` to the end, none if `at` is past the end.
pub fn behind(input: &[u8], at: usize) -> &[u8]
    ensures { result.now ≡ drop at input.now }
{
    input.get(at..).unwrap_or(&[])
}

// The granule record of a case. The word at `at` is its offset; at this offset is the number n of words given, then n words. The others
// are 0.
pub fn granules_at(input: &[u8], at: usize) -> [u64; 33]
    ensures { result ≡ granules_at at input.now }
{
    let from = length_at(input, at, 40000);
    let given = length_at(input, from, 33);
    let mut granules = [0u64; 33];
    read_words(behind(input, from + 8), &mut granules[..given]);
    granules
}

// The offset of the realm words of a case, which follow its granule record: first their number, then the words.
pub fn words_at(input: &[u8], at: usize) -> usize
    ensures { (result ≡ words_from at input.now) × (result ≤ 40272) }
{
    let from = length_at(input, at, 40000);
    from + 8 + 8 * length_at(input, from, 33)
}

// Fills `list` with words from `bytes`. A list of more than 600 words, which no case has, stays unchanged.
pub fn read_words(bytes: &[u8], list: &mut [u64])
    ensures { list.new ≡ read_into bytes.now list.old }
{
    if 600 < list.len() {
        return;
    }
    for (i, word) in list.iter_mut().enumerate() {
        *word = words::word_at(bytes, 8 * i);
    }
}

// Fills a list with the realm words of a case.
pub fn fill_words(input: &[u8], at: usize, list: &mut [u64])
    ensures { list.new ≡ fill_into at input.now list.old }
{
    if 600 < list.len() {
        return;
    }
    let from = words_at(input, at) + 8;
    let len = 8 * list.len();
    read_words(words::part_of(input, Span { at: from, len }), list);
}

// Prints a list of words on one line.
pub fn print_words(list: &[u64]) {
    io::write_all(STDOUT, b"words");
    for word in list {
        print_word(*word);
    }
    io::write_all(STDOUT, b"\n");
}

// Whether two slices have equal length and bytes.
pub fn same(a: &[u8], b: &[u8]) -> bool
    ensures { result ≡ same_bytes a.now b.now }
{
    a == b
}

// Prints the name `what`, and whether `held` equals `expected`.
pub fn print_same(what: &[u8], held: &[u8], expected: &[u8]) {
    io::write_all(STDOUT, what);
    if same(held, expected) {
        io::write_all(STDOUT, b" as expected\n");
        return;
    }
    io::write_all(STDOUT, b" not as expected\n");
}

// A 64-bit hash: length and bytes as digits in two bases, modulo the prime 2^32 - 5. No power of either base up to the 4,096th is a quotient
// of two differences of bytes, so two slices of equal length up to 4,096 that differ in one or two bytes differ in both halves.
pub fn mark(part: &[u8]) -> u64
    ensures { result ≡ mark_of part.now }
{
    let mut high = part.len() as u64 % 0xFFFF_FFFB;
    let mut low = high;
    for byte in part {
        let digit = u64::from(*byte);
        high = (high * 0x9E37_79B1 + digit) % 0xFFFF_FFFB;
        low = (low * 0x85EB_CA77 + digit) % 0xFFFF_FFFB;
    }
    high * 0x1_0000_0000 + low
}

// Prints a space and a number in 16 hex digits.
pub fn print_word(x: u64) {
    io::write_all(STDOUT, b" ");
    io::print_hex(STDOUT, x, 16);
}

// The boot record at the start of a case: word 0 is 1 for up (words 1 to 4 are its values), 2 for closed, any other number for fresh.
#[tactic(auto, unfolding(crate::specs::Cases::record_at))]
pub fn record_at(input: &[u8]) -> Record
    ensures { result ≡ record_at input.now }
{
    let params = Params {
        cpus: words::word_at(input, 8),
        base: words::word_at(input, 16),
        minor: words::word_at(input, 24),
        kept: words::word_at(input, 32),
    };
    match words::word_at(input, 0) {
        1 => Record::Up(params),
        2 => Record::Closed,
        _ => Record::fresh(),
    }
}
