// Packs the manifest page on standard input: 8 bytes of B, then the page. Writes the packed page to standard output, or one line with the refusal.
#![tactic(auto)]

ghost use Rattle.std.specs.Prelude.{◌≡◌, ◌≤◌, ◌<◌, length, take};
ghost use Rattle.io.specs.Counts.{IsPrefixLen};
ghost use Rattle.reader.specs.Reading.{refusal_number};
ghost use Rattle.pack_page.specs.Prints.{refused_line, pack_printed, PacksAll};

use pack::PackError;
use reader::Refusal;

// The descriptor of standard input.
const STDIN: i32 = 0;

// The descriptor of standard output.
const STDOUT: i32 = 1;

// Copies `text` to the start of `out`, which must hold it. Returns its length.
fn put(out: &mut [u8], text: &[u8]) -> usize
    requires { length text.now ≤ length out.old }
    ensures { (result ≡ length text.now) × (take result out.new ≡ text.now) }
{
    words::copy(out, text);
    text.len()
}

// Writes the line of a refusal. Returns its length.
fn put_code(out: &mut [u8], code: Refusal) -> usize
    requires { length out.old ≡ 4096 }
    ensures { (result ≤ 4096) × (take result out.new ≡ refused_line (refusal_number code)) }
{
    match code {
        Refusal::Place => put(out, b"refused -5 place\n"),
        Refusal::Version => put(out, b"refused -6 version\n"),
        Refusal::Rules => put(out, b"refused -7 rules\n"),
    }
}

// Writes the packed page of an input, or the line of its refusal. Returns the number of bytes.
fn pack_input(input: &[u8], out: &mut [u8]) -> usize
    requires { length out.old ≡ 4096 }
    ensures { (result ≤ 4096) × (take result out.new ≡ pack_printed input.now) }
{
    if input.len() != 4104 {
        return put_code(out, Refusal::Place);
    }
    match pack::pack(&input[8..], words::word_at(input, 0), out) {
        Ok(()) => out.len(),
        Err(PackError::Refused(code)) => put_code(out, code),
        Err(PackError::Target) => 0,
    }
}

// The same for the first `n` bytes of `room`. The room must hold at least 4,105 bytes, one more than a valid input, so that a longer input is noticed.
fn show(room: &[u8], n: usize, out: &mut [u8]) -> usize
    requires { IsPrefixLen n room.now × (4104 < length room.now) × (length out.old ≡ 4096) }
    ensures prefix_len { IsPrefixLen result out.new }
    ensures packs_all { PacksAll room.now n result out.new }
{
    pack_input(&room[..n], out)
}

// Reads standard input, packs the page and writes the result.
fn main() {
    let mut input = [0u8; 4105];
    let n = io::read_full(STDIN, &mut input);
    let mut out = [0u8; 4096];
    let written = show(&input, n, &mut out);
    io::write_all(STDOUT, &out[..written]);
}
