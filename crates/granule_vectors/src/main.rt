// Runs the numbered cases of data/, in turn, up to the first number without a case: lists of granules, queries of the realm words, and
// set-ups of the granule record. A case is 8-byte words: the boot record (0 fresh, 1 up, 2 closed, then its four values); 0 to delegate, 1 to
// undelegate, 2 to set up or 3 to query; the offset of the granule record (see `vector_io::granules_at`), which the realm words follow; the
// table's length; the number of addresses, the number of bytes of the banks, or the index for the query.
// List: then table, addresses and the expected table. Prints the answer, whether the table is as expected, and the words.
// Query: then the table. Prints count, next granule, whether words and table agree, whether the words were built, and the words.
// Set-up: then the banks. Prints the code and the record at exit.
#![tactic(auto)]

ghost use Rattle.std.specs.Prelude.{◌≤◌, length};

use boot::Record;
use codes::Answer;
use realm_words::Inval;
use vector_io::STDOUT;
use words::Span;

fn print(text: &[u8]) {
    io::write_all(STDOUT, text);
}

fn print_answer(answer: Answer) {
    print(b"registers");
    vector_io::print_word(answer.x0);
    vector_io::print_word(answer.x1);
    vector_io::print_word(answer.x2);
    print(b"\n");
}

fn print_moves(
    state: Record,
    granules: &[u64; 33],
    direction: u64,
    table: &mut [u8],
    words: &mut [u64],
    list: &[u64],
) {
    if direction == 0 {
        print_answer(granules::delegate_list(state, granules, table, words, list));
        return;
    }
    print_answer(granules::undelegate_list(state, granules, table, words, list));
}

// Runs a list. The table starts at offset 72; the addresses and the expected table follow.
fn print_list(input: &[u8], table: &mut [u8], words: &mut [u64], list: &mut [u64])
    requires { (length table.old ≤ 4200) × (length list.old ≤ 600) }
{
    let t = table.len();
    let k = 8 * list.len();
    vector_io::read_words(words::part_of(input, Span { at: 72 + t, len: k }), list);
    let granules = vector_io::granules_at(input, 48);
    let direction = words::word_at(input, 40);
    print_moves(
        vector_io::record_at(input),
        &granules,
        direction,
        table,
        words,
        list,
    );
    vector_io::print_same(
        b"table",
        table,
        words::part_of(
            input,
            Span {
                at: 72 + t + k,
                len: t,
            },
        ),
    );
    vector_io::print_words(words);
}

// ---- The realm words ----

fn print_number(number: Result<u64, Inval>) {
    match number {
        Err(Inval) => print(b"count INVAL\n"),
        Ok(n) => {
            print(b"count ");
            io::print_decimal(STDOUT, n);
            print(b"\n");
        }
    }
}

fn print_hit(hit: Result<Option<usize>, Inval>) {
    match hit {
        Err(Inval) => print(b"next INVAL\n"),
        Ok(None) => print(b"next none\n"),
        Ok(Some(index)) => {
            print(b"next ");
            io::print_decimal(STDOUT, index as u64);
            print(b"\n");
        }
    }
}

fn print_agreement(agreement: Result<bool, Inval>) {
    match agreement {
        Err(Inval) => print(b"agrees INVAL\n"),
        Ok(false) => print(b"agrees no\n"),
        Ok(true) => print(b"agrees yes\n"),
    }
}

fn print_built(built: Result<(), Inval>) {
    match built {
        Err(Inval) => print(b"build INVAL\n"),
        Ok(()) => print(b"build OK\n"),
    }
}

// Prints the count, the next Realm granule at or after the case's index, and whether words and table agree; then builds the words.
fn print_realm(input: &[u8], table: &[u8], words: &mut [u64]) {
    let granules = vector_io::granules_at(input, 48);
    let n = banks::granule_count(&granules) as usize;
    let index = words::word_at(input, 64) as usize;
    print_number(realm_words::count(words, n));
    print_hit(realm_next::next(words, n, index));
    print_agreement(realm_words::agrees(table, words, n));
    print_built(realm_words::build(table, words, n));
    vector_io::print_words(words);
}

// ---- The set-up ----

fn print_record(granules: &[u64; 33]) {
    print(b"record");
    for word in granules {
        print(b" ");
        io::print_hex(STDOUT, *word, 1);
    }
    print(b"\n");
}

// Runs a set-up. The banks start at offset 72.
fn print_set_up(input: &[u8]) {
    let mut granules = vector_io::granules_at(input, 48);
    let n = vector_io::length_at(input, 64, 4096);
    let shown = words::part_of(input, Span { at: 72, len: n });
    let code = banks::set_up(shown, words::word_at(input, 56), &mut granules);
    print(b"set_up");
    vector_io::print_word(u64::from(code));
    print(b"\n");
    print_record(&granules);
}

// Runs a list or a query on the lent table, words and list.
fn print_lent(input: &[u8], table: &mut [u8], words: &mut [u64], list: &mut [u64])
    requires { (length table.old ≤ 4200) × (length words.old ≤ 600) × (length list.old ≤ 600) }
{
    let t = table.len();
    words::copy(table, words::part_of(input, Span { at: 72, len: t }));
    vector_io::fill_words(input, 48, words);
    if words::word_at(input, 40) == 3 {
        print_realm(input, table, words);
        return;
    }
    print_list(input, table, words, list);
}

fn print_case(input: &[u8]) {
    if words::word_at(input, 40) == 2 {
        print_set_up(input);
        return;
    }
    let mut table = [0u8; 4200];
    let mut words = [0u64; 80];
    let mut list = [0u64; 600];
    let t = vector_io::length_at(input, 56, 4200);
    let w = vector_io::length_at(input, vector_io::words_at(input, 48), 80);
    let n = vector_io::length_at(input, 64, 600);
    print_lent(input, &mut table[..t], &mut words[..w], &mut list[..n]);
}

// This program, as `vector_io::each_case` takes it.
struct Program;

impl vector_io::CaseProgram for Program {
    fn show(&self, case: &mut [u8]) {
        print_case(case);
    }
}

fn main(rt: HostRuntime) {
    let mut input = [0u8; 12288];
    vector_io::each_case(&rt, &mut input, &Program);
}
