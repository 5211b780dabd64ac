// Mends the manifest page on standard input: 8 bytes of B, then the page. Writes the mended page to standard output, and to standard error a line for
// each of the six parts: whether it was changed. For a refused page, writes only the code, to standard error.
#![tactic(auto)]

ghost use Rattle.std.specs.Prelude.{◌≡◌, ◌+◌, ◌≤◌, length};
ghost use Rattle.io.specs.Counts.{IsPrefixLen};
ghost use Rattle.words.specs.Word.{splice};
ghost use Rattle.mend_page.specs.Text.{line_text, changes_text, refusal_text, report_text, MendsInput};

use mend::Changes;
use reader::Refusal;

// The descriptor of standard input.
const STDIN: i32 = 0;

// The descriptor of standard output.
const STDOUT: i32 = 1;

// The descriptor of standard error.
const STDERR: i32 = 2;

// Copies `text` to offset `at`. Returns the offset after it.
fn put(out: &mut [u8], at: usize, text: &[u8]) -> usize
    requires { (at + length text.now ≤ length out.old) × (length out.old ≡ 64) }
    ensures { (result ≡ at + length text.now) × (out.new ≡ splice at text.now out.old) }
{
    words::copy(&mut out[at..], text);
    at + text.len()
}

// Writes the line of a part: its title, then yes or no. Returns the offset after it.
fn put_line(out: &mut [u8], at: usize, title: &[u8], changed: bool) -> usize
    requires { (at + length title.now + 5 ≤ length out.old) × (length out.old ≡ 64) }
    ensures { (result ≡ at + length (line_text title.now changed))
        × (out.new ≡ splice at (line_text title.now changed) out.old) × (result ≤ at + length title.now + 5) }
{
    let to = put(out, at, title);
    if changed {
        return put(out, to, b" yes\n");
    }
    put(out, to, b" no\n")
}

// Writes the lines of the six parts. Returns their length.
fn put_changes(out: &mut [u8], changes: Changes) -> usize
    requires { length out.old ≡ 64 }
    ensures { (result ≡ length (changes_text changes)) × (out.new ≡ splice 0 (changes_text changes) out.old) × (result ≤ 63) }
{
    let plat = put_line(out, 0, b"padding", changes.padding);
    let dram = put_line(out, plat, b"platform", changes.plat);
    let console = put_line(out, dram, b"dram", changes.dram);
    let ncoh = put_line(out, console, b"console", changes.console);
    let coh = put_line(out, ncoh, b"ncoh", changes.ncoh);
    put_line(out, coh, b"coh", changes.coh)
}

// Writes the line of a refusal. Returns its length.
fn put_refused(out: &mut [u8], code: Refusal) -> usize
    requires { length out.old ≡ 64 }
    ensures { (result ≡ length (refusal_text code)) × (out.new ≡ splice 0 (refusal_text code) out.old) × (result ≤ 63) }
{
    match code {
        Refusal::Place => put(out, 0, b"refused -5\n"),
        Refusal::Version => put(out, 0, b"refused -6\n"),
        Refusal::Rules => put(out, 0, b"refused -7\n"),
    }
}

// Writes the report of an answer. Returns its length.
fn put_report(out: &mut [u8], mended: Result<Changes, Refusal>) -> usize
    requires { length out.old ≡ 64 }
    ensures prefix_len { IsPrefixLen result out.new }
    ensures value { (result ≡ length (report_text mended)) × (out.new ≡ splice 0 (report_text mended) out.old) }
{
    match mended {
        Ok(changes) => put_changes(out, changes),
        Err(code) => put_refused(out, code),
    }
}

// Mends the page of an input whose first `n` bytes are in `room`. The room holds one byte more than a valid input, so that a longer input is noticed.
fn mend_input(room: &mut [u8], n: usize) -> Result<Changes, Refusal>
    requires { IsPrefixLen n room.old × (length room.old ≡ 4105) }
    ensures { MendsInput room.old n result room.new }
{
    if n != 4104 {
        return Err(Refusal::Place);
    }
    let base = words::word_at(room, 0);
    mend::mend(&mut room[8..4104], base)
}

// Reads standard input, mends the page, and writes the page and the report.
fn main() {
    let mut input = [0u8; 4105];
    let n = io::read_full(STDIN, &mut input);
    let mended = mend_input(&mut input, n);
    let mut out = [0u8; 64];
    let written = put_report(&mut out, mended);
    io::write_all(STDERR, &out[..written]);
    if mended.is_ok() {
        io::write_all(STDOUT, &input[8..4104]);
    }
}
