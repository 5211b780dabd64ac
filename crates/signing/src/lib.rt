// Token signing: push, pull and key by opcode, each on its buffer in the page.
#![tactic(auto)]

ghost use Rattle.std.specs.Prelude.{◌≡◌, ◌+◌, ◌≤◌, length};
ghost use Rattle.buffer_check.specs.Range.{place_of};
ghost use Rattle.codes.specs.Codes.{boot_params, gated};
ghost use Rattle.queue.specs.Queue.{Lists, SigningStep, lists_of, signing_exit, exit_of};
ghost use Rattle.queue_image.specs.OnImage.{ImageStep};
ghost use Rattle.signing.specs.Signing.{opcode_of, is_other, bad_curve, shared_code, public_of, op_at, signing_of};
ghost use Rattle.signing.specs.OnImage.{signing_on};
ghost use Rattle.signing.specs.Steps.{op_on};

use boot::Record;
use buffer_check::OutsideAs;
use codes::{Answer, Code};
use queue::{Queue, QueueResult};

// The opcode of a token signing call.
#[derive(Clone, Copy)]
pub enum Opcode {
    Push,
    Pull,
    Key,
    Other,
}

// Compares all 64 bits.
impl From<u64> for Opcode {
    ghost from_gives = { λ n o. o ≡ opcode_of n };

    fn from(n: u64) -> Opcode {
        match n {
            1 => Opcode::Push,
            2 => Opcode::Pull,
            3 => Opcode::Key,
            _ => Opcode::Other,
        }
    }
}

impl Opcode {
    // Whether the opcode is not 1, 2 or 3.
    fn is_other(self) -> bool
        ensures { result ≡ is_other self }
    {
        matches!(self, Opcode::Other)
    }

    // Whether `curve` is refused: only opcode 3 has a curve, and it must be 0.
    fn refuses_curve(self, curve: u64) -> bool
        ensures { result ≡ bad_curve self curve }
    {
        match self {
            Opcode::Key => curve != 0,
            _ => false,
        }
    }
}

// Runs the checks that all opcodes share; returns the buffer's offset in the page.
fn common_checks(
    state: Record,
    len: usize,
    opcode: Opcode,
    pa: u64,
    size: u64,
    curve: u64,
) -> Result<usize, Code>
    ensures { result ≡ gated (shared_code state len opcode pa size curve) (place_of (boot_params state) pa) }
{
    let first = codes::code_if(opcode.is_other(), Code::Inval);
    let at = buffer_check::page_gate(state, len, first, OutsideAs::Invalid, pa, size)?;
    if opcode.refuses_curve(curve) {
        return Err(Code::Inval);
    }
    let params = codes::up_params(state)?;
    if params.minor < 4 {
        return Err(Code::Unk);
    }
    Ok(at)
}

// Key: writes the public key that the platform lends into the buffer; x1 is its length. The queue plays no part.
fn put_key(buffer: &mut [u8], key: &[u8]) -> Answer
    ensures { (q : Lists) → ◌≡◌ {A = SigningStep} (record { answer = result; page = buffer.new; queue = q }) (public_of buffer.old q key.now) }
{
    if key.len() == 0 {
        return Answer::refused(Code::Again);
    }
    if buffer.len() < key.len() {
        return Answer::refused(Code::Inval);
    }
    words::copy(buffer, key);
    Answer::ok(key.len() as u64, 0)
}

// Key, with the queue by value.
fn public_key(buffer: &mut [u8], queue: Queue, key: &[u8]) -> QueueResult
    ensures { signing_exit result buffer.new ≡ exit_of queue (public_of buffer.old (lists_of queue) key.now) }
{
    let answer = put_key(buffer, key);
    if answer.code != Code::Ok {
        return QueueResult { answer, queue };
    }
    QueueResult {
        answer,
        queue: queue::clear_free(queue),
    }
}

// Serves an opcode on the checked buffer of `size` bytes at offset `at` of the page.
fn serve(
    page: &mut [u8],
    at: usize,
    size: u64,
    queue: Queue,
    key: &[u8],
    opcode: Opcode,
) -> QueueResult
    requires { at + size ≤ length page.old }
    ensures { signing_exit result page.new ≡ exit_of queue (op_at opcode at size page.old (lists_of queue) key.now) }
{
    let end = at + size as usize;
    match opcode {
        Opcode::Push => requests::push(&page[at..end], queue),
        Opcode::Pull => responses::pull(&mut page[at..end], queue),
        Opcode::Key => public_key(&mut page[at..end], queue, key),
        Opcode::Other => queue::refused(Code::Inval, queue),
    }
}

// 0xC40001B5 (CM7): push, pull or key by opcode, on the buffer of `size` bytes at `pa`. The platform lends its public key.
pub fn token_signing(
    state: Record,
    page: &mut [u8],
    queue: Queue,
    key: &[u8],
    opcode: u64,
    pa: u64,
    size: u64,
    curve: u64,
) -> QueueResult
    ensures { signing_exit result page.new
        ≡ exit_of queue (signing_of state page.old (lists_of queue) key.now opcode pa size curve) }
{
    let opcode = Opcode::from(opcode);
    match common_checks(state, page.len(), opcode, pa, size, curve) {
        Ok(at) => serve(page, at, size, queue, key, opcode),
        Err(code) => queue::refused(code, queue),
    }
}

// Serves an opcode on the queue's image, after the shared checks: push changes the requests, pull the responses, key nothing.
fn serve_image(
    page: &mut [u8],
    at: usize,
    size: u64,
    image: &mut [u64; 210],
    key: &[u8],
    opcode: Opcode,
) -> Answer
    requires { at + size ≤ length page.old }
    ensures { ◌≡◌ {A = ImageStep} (record { answer = result; page = page.new; image = image.new })
        (op_on opcode at size page.old image.old key.now) }
{
    let end = at + size as usize;
    match opcode {
        Opcode::Push => requests::push_image(&page[at..end], image),
        Opcode::Pull => responses::pull_image(&mut page[at..end], image),
        Opcode::Key => put_key(&mut page[at..end], key),
        Opcode::Other => Answer::refused(Code::Inval),
    }
}

// 0xC40001B5 (CM7) on the queue's image. No word of the image is read before the shared checks pass.
pub fn token_signing_image(
    state: Record,
    page: &mut [u8],
    image: &mut [u64; 210],
    key: &[u8],
    opcode: u64,
    pa: u64,
    size: u64,
    curve: u64,
) -> Answer
    ensures { ◌≡◌ {A = ImageStep} (record { answer = result; page = page.new; image = image.new })
        (signing_on state page.old image.old key.now opcode pa size curve) }
{
    let opcode = Opcode::from(opcode);
    match common_checks(state, page.len(), opcode, pa, size, curve) {
        Ok(at) => serve_image(page, at, size, image, key, opcode),
        Err(code) => Answer::refused(code),
    }
}
