// Runs the calls of H_TPM_COMM of the numbered cases of data/, in turn, up to the first number without a case. A case is 8-byte
// words: the memory's length, its seed, the session (0 none, any other number open); then for each call the five arguments, the response's
// length and seed, and whether the platform forbids access and reports a fault. All calls of a case share the memory. Prints for each call
// the place of the request and its digest, r3, r4, the session and the memory's digest.
#![tactic(auto)]

use tpm::{Arguments, CommResult, TpmSession};
use vector_io::STDOUT;

// Fills `s` with the bytes of a seed: x becomes (171 * x + 11213) mod 65521, and a byte is the low eight bits of x.
fn fill(s: &mut [u8], seed: u64) {
    let mut x = seed % 65521;
    for byte in s {
        x = (x * 171 + 11213) % 65521;
        *byte = (x % 256) as u8;
    }
}

// x * (2^40 + 435) mod 2^64, in parts, because a product must not overflow.
fn times_prime(x: u64) -> u64 {
    let low = x % 0x1_0000_0000 * 435;
    let high = x / 0x1_0000_0000 * 435 % 0x1_0000_0000 * 0x1_0000_0000;
    let top = x % 0x100_0000 * 0x100_0000_0000;
    std::num::wrapping_add_u64(std::num::wrapping_add_u64(low, high), top)
}

// The 64-bit FNV-1a hash.
fn digest(s: &[u8]) -> u64 {
    let mut x: u64 = 0xCBF2_9CE4_8422_2325;
    for byte in s {
        x = times_prime(x ^ u64::from(*byte));
    }
    x
}

fn print_word(what: &[u8], x: u64) {
    io::write_all(STDOUT, what);
    io::print_hex(STDOUT, x, 1);
}

fn print_returned(returned: CommResult) {
    let code = returned.code;
    io::write_all(STDOUT, b" r3 -");
    io::print_decimal(STDOUT, i64::from(code).unsigned_abs());
    print_word(b" r4 ", returned.r4);
    print_word(
        b" session ",
        u64::from(returned.session == TpmSession::Open),
    );
}

fn print_request(asked: Arguments, memory: &[u8], forbidden: bool) {
    let place = tpm::request_place(asked, memory, forbidden);
    print_word(b"request ", place.at as u64);
    print_word(b" ", place.len as u64);
    print_word(b" ", digest(tpm::request(asked, memory, forbidden)));
}

fn arguments_of(call: &[u8]) -> Arguments {
    Arguments {
        operation: words::word_at(call, 0),
        inbuffer: words::word_at(call, 8),
        insize: words::word_at(call, 16),
        outbuffer: words::word_at(call, 24),
        outsize: words::word_at(call, 32),
    }
}

// Runs a call of the case. Returns the session after it.
fn print_call(
    session: TpmSession,
    call: &[u8],
    memory: &mut [u8],
    response: &mut [u8],
) -> TpmSession {
    let asked = arguments_of(call);
    let n = vector_io::length_at(call, 40, response.len());
    let forbidden = words::word_at(call, 56) != 0;
    let fault = words::word_at(call, 64) != 0;
    fill(&mut response[..n], words::word_at(call, 48));
    print_request(asked, memory, forbidden);
    let returned = tpm::comm(session, asked, memory, &response[..n], forbidden, fault);
    print_returned(returned);
    print_word(b" memory ", digest(memory));
    io::write_all(STDOUT, b"\n");
    returned.session
}

fn print_calls(input: &[u8], memory: &mut [u8], response: &mut [u8]) {
    let mut session = TpmSession::none();
    if words::word_at(input, 16) != 0 {
        session = TpmSession::Open;
    }
    for call in vector_io::behind(input, 24).chunks(72) {
        session = print_call(session, call, memory, response);
    }
}

fn print_lent(input: &[u8], memory: &mut [u8], response: &mut [u8]) {
    let n = vector_io::length_at(input, 0, memory.len());
    fill(&mut memory[..n], words::word_at(input, 8));
    print_calls(input, &mut memory[..n], response);
}

fn print_case(input: &[u8]) {
    let mut memory = [0u8; 65536];
    let mut response = [0u8; 65600];
    print_lent(input, &mut memory, &mut response);
}

// This program, as `vector_io::each_case` takes it.
struct Program;

impl vector_io::CaseProgram for Program {
    fn show(&self, case: &mut [u8]) {
        print_case(case);
    }
}

fn main(rt: HostRuntime) {
    let mut input = [0u8; 32768];
    vector_io::each_case(&rt, &mut input, &Program);
}
