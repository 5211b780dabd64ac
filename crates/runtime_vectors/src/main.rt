// Runs the operations of the numbered cases of data/, in turn, up to the first number without a case. A case is 8-byte words: the boot
// record (0 fresh, 1 up, 2 closed, then its four values), the offset of the granule record (see `vector_io::granules_at`), which the realm
// words follow, MECIDWidthm1, the session (0 idle, 1 sending, then whole and sent), the places of page, table, realm key, public key and
// queue, and the number of operations; then the operations. A place is an offset in the file and a length. An operation is its kind (0 call,
// 1 signer's step, 2 challenge lookup, 3 oldest request), function id, x1 to x4, busy, the places of token and signature, and the expected
// change of page and of table: each an offset there, and the place of the new bytes. Prints each answer and the state after it, and at the
// end of a case the whole queue and the words.
#![tactic(auto)]

ghost use Rattle.std.specs.Prelude.{◌≤◌, length};

use codes::{Answer, Work};
use queue::{Queue, Request, Response, Side};
use runtime::Reply;
use token::Session;
use vector_io::STDOUT;
use words::Span;

// The session and the queue, which each operation passes to the next.
#[derive(Clone, Copy)]
struct State {
    session: Session,
    queue: Queue,
}

// ---- Reading a case ----

// The bytes at the place (offset and length) in the two words at offset `at`.
fn lent(input: &[u8], at: usize) -> &[u8]
    requires { at ≤ 50000 }
{
    let from = vector_io::length_at(input, at, 40000);
    let length = vector_io::length_at(input, at + 8, 40000);
    words::part_of(
        input,
        Span {
            at: from,
            len: length,
        },
    )
}

// The queue of an image in the case, or the empty queue if the case has no image.
fn queue_at(bytes: &[u8]) -> Queue {
    if bytes.len() == 0 {
        return Queue::empty();
    }
    let mut image = [0u64; 210];
    vector_io::read_words(bytes, &mut image);
    queue_image::queue_of(&image)
}

fn session_at(input: &[u8]) -> Session {
    let image = [
        words::word_at(input, 56),
        words::word_at(input, 64),
        words::word_at(input, 72),
    ];
    images::session_of(&image)
}

// ---- Printing ----

fn print(text: &[u8]) {
    io::write_all(STDOUT, text);
}

fn print_word(x: u64) {
    print(b" ");
    io::print_hex(STDOUT, x, 1);
}

fn print_number(x: u64) {
    print(b" ");
    io::print_decimal(STDOUT, x);
}

fn print_byte(x: u8) {
    io::print_hex(STDOUT, u64::from(x), 2);
}

// Prints bytes in hex and ends the line.
fn print_bytes(s: &[u8]) {
    print(b" ");
    for byte in s {
        print_byte(*byte);
    }
    print(b"\n");
}

fn print_answer(answer: Answer) {
    print(b"registers");
    print_word(answer.x0);
    print_word(answer.x1);
    print_word(answer.x2);
}

fn print_reply(reply: Reply) {
    match reply {
        Reply::Forward(error) => {
            print(b"forward");
            print_word(error);
        }
        Reply::Back { answer, work } => {
            print_answer(answer);
            if let Work::Reprogram(mecid) = work {
                print(b" reprogram");
                print_word(mecid);
            }
        }
    }
    print(b"\n");
}

fn print_challenge(challenge: &[u8]) {
    print(b"challenge");
    print_number(challenge.len() as u64);
    print_bytes(challenge);
}

fn print_request(request: Request) {
    print_word(request.algorithm);
    print_word(request.granule);
    print_word(request.ticket);
    print_word(request.hashid);
    let hash = request.hash;
    print_bytes(&hash);
}

fn print_oldest(queue: Queue) {
    match queue::oldest_request(queue) {
        None => {
            print(b"oldest none\n");
        }
        Some(request) => {
            print(b"oldest");
            print_request(request);
        }
    }
}

// Prints a response with its stored length, and min(length, 104) bytes of its signature.
fn print_response(response: Response) {
    print(b"response");
    print_word(response.granule);
    print_word(response.ticket);
    print_number(response.len as u64);
    let signature = response.signature;
    let len = queue::signature_len(response);
    print_bytes(words::part_of(&signature, Span { at: 0, len }));
}

// Prints the waiting requests. A count above 8 counts as 8.
fn print_requests(side: &Side<Request>) {
    for request in side.waiting() {
        print(b"request");
        print_request(*request);
    }
}

fn print_responses(side: &Side<Response>) {
    for response in side.waiting() {
        print_response(*response);
    }
}

fn print_queue(queue: Queue) {
    print_requests(&queue.requests);
    print_responses(&queue.responses);
}

fn print_same(what: &[u8], held: &[u8], expected: &[u8]) {
    print(what);
    if held == expected {
        print(b" same");
    } else {
        print(b" differs");
    }
}

// Prints the session and the stored counts of the queue.
fn print_state(state: State) {
    let session = state.session;
    let queue = state.queue;
    let requests = queue.requests;
    let responses = queue.responses;
    match session {
        Session::Idle => {
            print(b"session idle");
        }
        Session::Sending { whole, sent } => {
            print(b"session");
            print_number(whole);
            print_number(sent);
        }
    }
    print(b", queue");
    print_number(requests.count as u64);
    print_number(responses.count as u64);
}

// ---- The operations ----

fn call(
    input: &[u8],
    at: usize,
    page: &mut [u8],
    table: &mut [u8],
    words: &mut [u64],
    state: State,
) -> State
    requires { at ≤ 40000 }
{
    let granules = vector_io::granules_at(input, 40);
    let session = state.session;
    let queue = state.queue;
    let stepped = runtime::call(
        vector_io::record_at(input),
        &granules,
        words::word_at(input, at + 8),
        words::word_at(input, at + 16),
        words::word_at(input, at + 24),
        words::word_at(input, at + 32),
        words::word_at(input, at + 40),
        page,
        table,
        words,
        lent(input, 112),
        words::word_at(input, at + 48) != 0,
        lent(input, at + 56),
        session,
        queue,
        lent(input, 128),
        words::word_at(input, 48),
    );
    let reply = stepped.reply;
    print_reply(reply);
    let next = stepped.session;
    let waiting = stepped.queue;
    State {
        session: next,
        queue: waiting,
    }
}

fn sign(input: &[u8], at: usize, state: State) -> State
    requires { at ≤ 40000 }
{
    let session = state.session;
    let queue = state.queue;
    let signed = responses::sign(queue, lent(input, at + 72));
    print_answer(signed.answer);
    print(b"\n");
    let next = signed.queue;
    State {
        session,
        queue: next,
    }
}

// Runs the operation at offset `at` of the case.
fn operate(
    input: &[u8],
    at: usize,
    page: &mut [u8],
    table: &mut [u8],
    words: &mut [u64],
    state: State,
) -> State
    requires { at ≤ 40000 }
{
    let kind = words::word_at(input, at);
    if kind == 0 {
        return call(input, at, page, table, words, state);
    }
    if kind == 1 {
        return sign(input, at, state);
    }
    if kind == 2 {
        let pa = words::word_at(input, at + 16);
        let size = words::word_at(input, at + 24);
        let csize = words::word_at(input, at + 32);
        let challenge = token::challenge(vector_io::record_at(input), page, pa, size, csize);
        print_challenge(challenge);
        return state;
    }
    let queue = state.queue;
    print_oldest(queue);
    state
}

// Applies an operation's expected change, an offset and the place of the new bytes, to `expected`.
fn lay(input: &[u8], at: usize, expected: &mut [u8])
    requires { at ≤ 40000 }
{
    let to = vector_io::length_at(input, at, 40000);
    if expected.len() < to {
        return;
    }
    words::copy(&mut expected[to..], lent(input, at + 8));
}

// The state that a case starts with.
fn state_at(input: &[u8]) -> State {
    State {
        session: session_at(input),
        queue: queue_at(lent(input, 144)),
    }
}

// Prints whether page or table is as expected after an operation. Its expected change is at offset `at` of the case.
fn print_change(input: &[u8], at: usize, what: &[u8], held: &[u8], expected: &mut [u8])
    requires { at ≤ 40000 }
{
    lay(input, at, expected);
    print_same(what, held, expected);
}

fn print_operations(
    input: &[u8],
    page: &mut [u8],
    expected: &mut [u8],
    table: &mut [u8],
    wanted: &mut [u8],
    words: &mut [u64],
) -> Queue {
    let mut state = state_at(input);
    let count = vector_io::length_at(input, 160, 250);
    // Counted: the places in an operation are offsets of the whole case, so each step takes the case and an offset, no part of it.
    for i in 0..count {
        let at = 168 + 136 * i;
        state = operate(input, at, page, table, words, state);
        print_state(state);
        print_change(input, at + 88, b", page", page, expected);
        print_change(input, at + 112, b", table", table, wanted);
        print(b"\n");
    }
    state.queue
}

// Copies the case's bytes to the lent buffer and to the expected one, before the first operation.
fn fill(held: &mut [u8], expected: &mut [u8], bytes: &[u8]) {
    words::copy(held, bytes);
    words::copy(expected, bytes);
}

// Runs the operations of a case on the lent page, table and words, and prints the queue.
fn print_whole(
    input: &[u8],
    page: &mut [u8],
    expected: &mut [u8],
    table: &mut [u8],
    wanted: &mut [u8],
    words: &mut [u64],
) {
    fill(page, expected, lent(input, 80));
    fill(table, wanted, lent(input, 96));
    let queue = print_operations(input, page, expected, table, wanted, words);
    print_queue(queue);
}

// Runs a case. `expected` and `wanted` hold the expected page and table.
fn print_lent(
    input: &[u8],
    page: &mut [u8],
    expected: &mut [u8],
    table: &mut [u8],
    wanted: &mut [u8],
    words: &mut [u64],
)
    requires { length words.old ≤ 600 }
{
    vector_io::fill_words(input, 40, words);
    print_whole(input, page, expected, table, wanted, words);
    vector_io::print_words(words);
}

fn print_case(input: &[u8]) {
    let mut page = [0u8; 4200];
    let mut expected = [0u8; 4200];
    let mut table = [0u8; 600];
    let mut wanted = [0u8; 600];
    let mut words = [0u64; 80];
    let n = vector_io::length_at(input, 88, 4200);
    let t = vector_io::length_at(input, 104, 600);
    let w = vector_io::length_at(input, vector_io::words_at(input, 40), 80);
    print_lent(
        input,
        &mut page[..n],
        &mut expected[..n],
        &mut table[..t],
        &mut wanted[..t],
        &mut words[..w],
    );
}

// This program, as `vector_io::each_case` takes it.
struct Program;

impl vector_io::CaseProgram for Program {
    fn show(&self, case: &mut [u8]) {
        print_case(case);
    }
}

fn main(rt: HostRuntime) {
    let mut input = [0u8; 32768];
    vector_io::each_case(&rt, &mut input, &Program);
}
