// Runs the commands of the numbered cases of data/, in turn, up to the first number without a case. A case is 8-byte words:
// the boot record (0 fresh, 1 up, 2 closed, then its four values), the function id, x1 to x3, the offset of the granule record (see
// `vector_io::granules_at`), which the realm words follow, MECIDWidthm1, the lengths of table, key and page; then these three, and table and
// page expected at exit. Prints the answer, whether both are as expected, and the realm words.
#![tactic(auto)]

ghost use Rattle.std.specs.Prelude.{◌≤◌, length};

use boot::Record;
use codes::{Answer, Work};
use vector_io::STDOUT;
use words::Span;

fn print_answer(answer: Answer) {
    io::write_all(STDOUT, b"registers");
    vector_io::print_word(answer.x0);
    vector_io::print_word(answer.x1);
    vector_io::print_word(answer.x2);
    io::write_all(STDOUT, b"\n");
}

fn print_work(work: Work) {
    let Work::Reprogram(mecid) = work else {
        return;
    };
    io::write_all(STDOUT, b"reprogram");
    vector_io::print_word(mecid);
    io::write_all(STDOUT, b"\n");
}

// Prints the answer of a command that takes neither table nor page.
fn print_other(state: Record, id: u64, x1: u64, width: u64) {
    if id == 0xC400_01B4 {
        print_answer(features::features(state, x1));
        return;
    }
    if id == 0xC400_01B6 {
        let updated = features::key_update(state, width, x1);
        print_answer(updated.answer);
        let work = updated.work;
        print_work(work);
        return;
    }
    io::write_all(STDOUT, b"forward");
    vector_io::print_word(features::forward(state, x1));
    io::write_all(STDOUT, b"\n");
}

// Runs the command of a case on its table, key and page, and prints the answer.
fn print_command(input: &[u8], table: &mut [u8], words: &mut [u64], key: &[u8], page: &mut [u8]) {
    let state = vector_io::record_at(input);
    let granules = vector_io::granules_at(input, 72);
    let id = words::word_at(input, 40);
    let x1 = words::word_at(input, 48);
    if id == 0xC400_01B0 {
        print_answer(granules::delegate(state, &granules, table, words, x1));
        return;
    }
    if id == 0xC400_01B1 {
        print_answer(granules::undelegate(state, &granules, table, words, x1));
        return;
    }
    if id == 0xC400_01B2 {
        let size = words::word_at(input, 56);
        let curve = words::word_at(input, 64);
        print_answer(attest::realm_key(state, page, key, x1, size, curve));
        return;
    }
    print_other(state, id, x1, words::word_at(input, 80));
}

// Prints whether table and page equal those expected, which start at offset `at` of the case, and prints the words.
fn print_exit(input: &[u8], at: usize, table: &[u8], words: &[u64], page: &[u8])
    requires { (at ≤ 20000) × (length table.now ≤ 600) }
{
    let t = table.len();
    let n = page.len();
    vector_io::print_same(b"table", table, words::part_of(input, Span { at, len: t }));
    vector_io::print_same(
        b"page",
        page,
        words::part_of(input, Span { at: at + t, len: n }),
    );
    vector_io::print_words(words);
}

// Fills table, words and page from the case: the table starts at offset 112, the page at offset `at`.
fn fill(input: &[u8], at: usize, table: &mut [u8], words: &mut [u64], page: &mut [u8])
    requires { length words.old ≤ 600 }
{
    let t = table.len();
    let n = page.len();
    words::copy(table, words::part_of(input, Span { at: 112, len: t }));
    words::copy(page, words::part_of(input, Span { at, len: n }));
    vector_io::fill_words(input, 72, words);
}

// Runs a case. At offset 112 are the table, a key of `k` bytes and the page, then the expected table and page.
fn print_lent(input: &[u8], table: &mut [u8], words: &mut [u64], k: usize, page: &mut [u8])
    requires { (length table.old ≤ 600) × (length words.old ≤ 600) × (k ≤ 4200) × (length page.old ≤ 4200) }
{
    let t = table.len();
    let n = page.len();
    let first = 112 + t + k;
    fill(input, first, table, words, page);
    let key = words::part_of(
        input,
        Span {
            at: 112 + t,
            len: k,
        },
    );
    print_command(input, table, words, key, page);
    print_exit(input, first + n, table, words, page);
}

fn print_case(input: &[u8]) {
    let mut table = [0u8; 600];
    let mut words = [0u64; 80];
    let mut page = [0u8; 4200];
    let t = vector_io::length_at(input, 88, 600);
    let w = vector_io::length_at(input, vector_io::words_at(input, 72), 80);
    let k = vector_io::length_at(input, 96, 4200);
    let n = vector_io::length_at(input, 104, 4200);
    print_lent(input, &mut table[..t], &mut words[..w], k, &mut page[..n]);
}

// This program, as `vector_io::each_case` takes it.
struct Program;

impl vector_io::CaseProgram for Program {
    fn show(&self, case: &mut [u8]) {
        print_case(case);
    }
}

fn main(rt: HostRuntime) {
    let mut input = [0u8; 32768];
    vector_io::each_case(&rt, &mut input, &Program);
}
