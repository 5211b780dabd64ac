// Makes the calls of the numbered cases of data/, in turn, up to the first number without a case. A case is a list of calls, 256 bytes
// each, on one collector and one buffer of 96 bytes: seven 8-byte words (the call, four numbers, the number of bytes of the buffer to lend,
// the message's length), the message at offset 64, and at offset 160 the buffer expected after the call. Prints the answer, the collector,
// whether it is complete, the parts last read, the length last written, and whether the buffer is as expected.
#![tactic(auto)]

ghost use Rattle.std.specs.Prelude.{◌≤◌, length, ◌≡◌};

use vector_io::STDOUT;

fn number_at(call: &[u8], at: usize) -> u32 {
    (words::word_at(call, at) % 0x1_0000_0000) as u32
}

fn print_numbers(what: &[u8], numbers: &[u32]) {
    io::write_all(STDOUT, what);
    for number in numbers {
        io::write_all(STDOUT, b" ");
        io::print_hex(STDOUT, u64::from(*number), 8);
    }
}

// Prints what a call leaves in the lent words.
fn print_left(answer: u32, image: &[u32; 3], parts: &[u32; 4], len: usize) {
    print_numbers(b"answer", &[answer]);
    print_numbers(b" collector", image);
    print_numbers(b" held", &[potterbeam_swtpm::pbeam_swtpm_held(image)]);
    if potterbeam_swtpm::pbeam_swtpm_complete(image) {
        io::write_all(STDOUT, b" complete");
    }
    print_numbers(b" parts", parts);
    io::write_all(STDOUT, b" length ");
    io::print_decimal(STDOUT, len as u64);
}

// Call 4 writes a request, 5 a response with the message as data.
fn write(call: &[u8], message: &[u8], lent: &mut [u8], len: &mut usize) -> u32 {
    let a = number_at(call, 8);
    let b = number_at(call, 16);
    let c = number_at(call, 24);
    let d = number_at(call, 32);
    if words::word_at(call, 0) == 4 {
        return potterbeam_swtpm::pbeam_swtpm_write_request(lent, a, b, c, d, len);
    }
    potterbeam_swtpm::pbeam_swtpm_write_response(lent, a, b, c, d, message, len)
}

// Call 1 reads a request, 2 a response, 3 collects one.
fn make(
    call: &[u8],
    message: &[u8],
    lent: &mut [u8],
    image: &mut [u32; 3],
    parts: &mut [u32; 4],
    len: &mut usize,
) -> u32 {
    let kind = words::word_at(call, 0);
    let a = number_at(call, 8);
    if kind == 1 {
        return potterbeam_swtpm::pbeam_swtpm_read_request(message, a, parts);
    }
    if kind == 2 {
        return potterbeam_swtpm::pbeam_swtpm_read_response(message, a, parts);
    }
    if kind == 3 {
        return potterbeam_swtpm::pbeam_swtpm_collect(image, message, a, lent);
    }
    write(call, message, lent, len)
}

// Call 0 sets the collector's three words and the buffer. For any other call, makes it and prints what it leaves.
fn print_call(
    call: &[u8],
    buffer: &mut [u8],
    image: &mut [u32; 3],
    parts: &mut [u32; 4],
    len: &mut usize,
)
    requires { (length call.now ≡ 256) × (length buffer.old ≡ 96) }
{
    let expected = &call[160..256];
    if words::word_at(call, 0) == 0 {
        *image = [number_at(call, 8), number_at(call, 16), number_at(call, 24)];
        words::copy(buffer, expected);
        return;
    }
    let room = vector_io::length_at(call, 40, 96);
    let end = 64 + vector_io::length_at(call, 48, 96);
    let answer = make(call, &call[64..end], &mut buffer[..room], image, parts, len);
    print_left(answer, image, parts, *len);
    vector_io::print_same(b" buffer", buffer, expected);
}

fn print_case(input: &[u8]) {
    let mut buffer = [0u8; 96];
    let mut image = [0u32; 3];
    let mut parts = [0u32; 4];
    let mut len: usize = 0;
    for call in input.chunks_exact(256) {
        print_call(call, &mut buffer, &mut image, &mut parts, &mut len);
    }
}

// This program, as `vector_io::each_case` takes it.
struct Program;

impl vector_io::CaseProgram for Program {
    fn show(&self, case: &mut [u8]) {
        print_case(case);
    }
}

fn main(rt: HostRuntime) {
    let mut input = [0u8; 65536];
    vector_io::each_case(&rt, &mut input, &Program);
}
