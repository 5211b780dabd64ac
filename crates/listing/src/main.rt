// Lists the manifest page on standard input, as a reader of edition 4 shows it: 8 bytes of B, then the page.
#![tactic(auto)]

ghost use Rattle.std.specs.Prelude.{◌≤◌, ◌<◌, length};
ghost use Rattle.io.specs.Counts.{IsPrefixLen};
ghost use Rattle.text_lines.specs.Text.{listing_room};
ghost use Rattle.listing.specs.Prints.{PrintsAll};

// The descriptor of standard input.
const STDIN: i32 = 0;

// The descriptor of standard output.
const STDOUT: i32 = 1;

// Writes the listing of an input whose first `n` bytes are in `room`. The room must hold at least 4,105 bytes, one more than a valid input, so that a
// longer input is noticed; `out` must hold the longest listing, so nothing is cut.
fn show(room: &[u8], n: usize, out: &mut [u8]) -> usize
    requires { IsPrefixLen n room.now × (4104 < length room.now) × (listing_room ≤ length out.old) }
    ensures prefix_len { IsPrefixLen result out.new }
    ensures prints_all { PrintsAll room.now n result out.new }
{
    text::list_input(&room[..n], out)
}

// Reads standard input and writes its listing.
fn main() {
    let mut input = [0u8; 4105];
    let n = io::read_full(STDIN, &mut input);
    let mut out = [0u8; 12336];
    let written = show(&input, n, &mut out);
    io::write_all(STDOUT, &out[..written]);
}
