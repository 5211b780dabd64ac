// Packs or mends the pages of the numbered cases of data/, in turn, up to the first number without a case. A case is four words: 0 to pack or
// 1 to mend, B, the target's length and the byte that fills the target; then a page of any length. Prints the answer, the mark
// (`vector_io::mark`) of the page afterwards, for a packed page also the mark after it is packed again, and the listing of the result.
#![tactic(auto)]

use pack::PackError;
use reader::Refusal;
use vector_io::STDOUT;

fn print_refused(code: Refusal) {
    io::write_all(STDOUT, b"refused -");
    io::print_decimal(STDOUT, u64::from(i32::from(code).unsigned_abs()));
    io::write_all(STDOUT, b"\n");
}

fn print_mark(name: &[u8], page: &[u8]) {
    io::write_all(STDOUT, name);
    vector_io::print_word(vector_io::mark(page));
    io::write_all(STDOUT, b"\n");
}

fn print_listing(page: &[u8], base: u64) {
    let mut out = [0u8; 16384];
    let n = text::list(page, base, 4, &mut out);
    io::write_all(STDOUT, &out[..n]);
}

// Prints for each of the six parts whether it was changed.
fn print_report(changed: [u64; 6]) {
    io::write_all(STDOUT, b"mended");
    for word in &changed {
        io::write_all(STDOUT, b" ");
        io::print_decimal(STDOUT, *word);
    }
    io::write_all(STDOUT, b"\n");
}

fn print_mended(page: &mut [u8], base: u64) {
    let mended = mend::mend(page, base);
    match mended {
        Ok(_) => {
            print_report(mend::report_words(mended));
            print_mark(b"page", page);
            print_listing(page, base);
        }
        Err(code) => {
            print_refused(code);
            print_mark(b"page", page);
        }
    }
}

// Packs a packed page again and prints its mark.
fn print_again(page: &[u8], base: u64) {
    let mut again = [0xFFu8; 4096];
    // Refused, it would leave the mark of an untouched page.
    let _ = pack::pack(page, base, &mut again);
    print_mark(b"again", &again);
}

fn print_packed(page: &[u8], base: u64, target: &mut [u8]) {
    match pack::pack(page, base, target) {
        Ok(()) => {
            io::write_all(STDOUT, b"packed\n");
            print_mark(b"target", target);
            print_again(target, base);
            print_listing(target, base);
        }
        Err(PackError::Refused(code)) => {
            print_refused(code);
            print_mark(b"target", target);
        }
        Err(PackError::Target) => {
            io::write_all(STDOUT, b"refused W1\n");
            print_mark(b"target", target);
        }
    }
}

fn filled(byte: u8) -> [u8; 8192] {
    [byte; 8192]
}

fn print_case(input: &mut [u8]) {
    if input.len() < 32 {
        return;
    }
    let base = words::word_at(input, 8);
    if words::word_at(input, 0) == 1 {
        print_mended(&mut input[32..], base);
        return;
    }
    let mut room = filled((words::word_at(input, 24) % 256) as u8);
    let n = vector_io::length_at(input, 16, 8192);
    print_packed(&input[32..], base, &mut room[..n]);
}

// This program, as `vector_io::each_case` takes it.
struct Program;

impl vector_io::CaseProgram for Program {
    fn show(&self, case: &mut [u8]) {
        print_case(case);
    }
}

fn main(rt: HostRuntime) {
    let mut input = [0u8; 8225];
    vector_io::each_case(&rt, &mut input, &Program);
}
