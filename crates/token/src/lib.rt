// The platform token, sent in hunks, and the lookup of its challenge.
#![tactic(auto)]

ghost use Rattle.std.specs.Prelude.{◌≡◌, false, ◌+◌, ◌≤◌, length};
ghost use Rattle.words.specs.Word.{part, splice, spanned, on_from};
ghost use Rattle.buffer_check.specs.Range.{place_of};
ghost use Rattle.codes.specs.Codes.{number_of, boot_params, answer_of, gated};
ghost use Rattle.token_rules.specs.Token.{listed, buffer_code, start_code, begin_of, token_exit, send_of, token_of};
ghost use Rattle.token_rules.specs.Token.{challenge_of, challenge_span, challenge_number};

use boot::Record;
use buffer_check::OutsideAs;
use codes::{Answer, Code};
pub use token_rules::{Session, TokenResult};
use words::Span;

// The sizes of a challenge, in bytes.
const CHALLENGE_NONE: u64 = 0;

const CHALLENGE_SHA256: u64 = 32;

const CHALLENGE_SHA384: u64 = 48;

const CHALLENGE_SHA512: u64 = 64;

// Whether `csize` is 0, 32, 48 or 64.
fn is_listed(csize: u64) -> bool
    ensures { result ≡ listed csize }
{
    matches!(
        csize,
        CHALLENGE_NONE | CHALLENGE_SHA256 | CHALLENGE_SHA384 | CHALLENGE_SHA512
    )
}

// Checks the record, the page's length `len`, `busy`, the buffer of `size` bytes at `pa`, then `csize` (RT6, RT7, CM5.2 to CM5.6). Returns
// the buffer's offset in the page, or the code of the first check that fails.
fn buffer_of(
    state: Record,
    len: usize,
    busy: bool,
    pa: u64,
    size: u64,
    csize: u64,
) -> Result<usize, Code>
    ensures { result ≡ gated (buffer_code state len busy pa size csize) (place_of (boot_params state) pa) }
{
    let first = codes::code_if(busy, Code::Again);
    let at = buffer_check::page_gate(state, len, first, OutsideAs::BadAddress, pa, size)?;
    if !is_listed(csize) {
        return Err(Code::Inval);
    }
    if size < csize {
        return Err(Code::Inval);
    }
    Ok(at)
}

// Checks session and token; returns the offset in the token at which the call starts.
fn start_of(session: Session, csize: u64, len: usize) -> Result<usize, Code>
    ensures { result ≡ gated (start_code session csize len) (begin_of session csize) }
{
    if csize != 0 {
        if len == 0 {
            return Err(Code::Unk);
        }
        return Ok(0);
    }
    let Session::Sending { whole, sent } = session else {
        return Err(Code::Inval);
    };
    if len == 0 {
        return Err(Code::Unk);
    }
    if len as u64 != whole {
        return Err(Code::Unk);
    }
    Ok(sent as usize)
}

// Copies `n` bytes of the token, from offset `from`, to offset `at` of the page.
fn put_hunk(page: &mut [u8], at: usize, token: &[u8], from: usize, n: usize)
    requires { (at + n ≤ length page.old) × (from + n ≤ length token.now) }
    ensures { page.new ≡ splice at (part from n token.now) page.old }
{
    let end = from + n;
    words::copy(&mut page[at..], &token[from..end]);
}

// Sends the next hunk, min(size, rest) bytes, to offset `at` of the page. Past the token's end the rest is 0.
fn send(page: &mut [u8], at: usize, token: &[u8], from: usize, size: u64) -> TokenResult
    requires { at + size ≤ length page.old }
    ensures { token_exit result page.new ≡ send_of at token.now from size page.old }
{
    let len = token.len();
    if len <= from {
        return TokenResult {
            answer: Answer::ok(0, 0),
            session: Session::idle(),
        };
    }
    let left = len - from;
    if left as u64 <= size {
        put_hunk(page, at, token, from, left);
        return TokenResult {
            answer: Answer::ok(left as u64, 0),
            session: Session::idle(),
        };
    }
    let n = size as usize;
    put_hunk(page, at, token, from, n);
    TokenResult {
        answer: Answer::ok(size, (left - n) as u64),
        session: Session::Sending {
            whole: len as u64,
            sent: (from + n) as u64,
        },
    }
}

// Refuses a call with `code`; the session is unchanged.
fn refused(code: Code, session: Session) -> TokenResult
    ensures { (result.answer ≡ answer_of code 0 0) × (result.session ≡ session) }
{
    TokenResult {
        answer: Answer::refused(code),
        session,
    }
}

// 0xC40001B3 (CM5): writes the next hunk of the token that the platform lends into the buffer of `size` bytes at `pa`; x1 is the length of
// the hunk, x2 of the rest. A nonzero `csize` starts again (CM5.9).
pub fn platform_token(
    state: Record,
    page: &mut [u8],
    session: Session,
    busy: bool,
    token: &[u8],
    pa: u64,
    size: u64,
    csize: u64,
) -> TokenResult
    ensures { token_exit result page.new ≡ token_of state page.old session busy token.now pa size csize }
{
    let at = match buffer_of(state, page.len(), busy, pa, size, csize) {
        Ok(at) => at,
        Err(code) => return refused(code, session),
    };
    match start_of(session, csize, token.len()) {
        Ok(from) => send(page, at, token, from, size),
        Err(code) => refused(code, session),
    }
}

// Returns the place of a start's challenge in the page: `csize` bytes at `pa`; offset 0 and length 0 if a check fails.
pub fn challenge_place(state: Record, page: &[u8], pa: u64, size: u64, csize: u64) -> Span
    ensures value { result ≡ challenge_span state page.now pa size csize }
    ensures page_value { spanned result page.now ≡ challenge_of state page.now pa size csize }
{
    let Ok(at) = buffer_of(state, page.len(), false, pa, size, csize) else {
        return Span { at: 0, len: 0 };
    };
    words::span_at(at, csize as usize)
}

// Returns the code of the first check that fails for the challenge, or OK. With OK and `csize` 0 the call is no start.
// A `Code` and no `Result`: clause `value` takes the code, which pbeam_challenge passes on as x0.
pub fn challenge_code(state: Record, page: &[u8], pa: u64, size: u64, csize: u64) -> Code
    ensures value { result ≡ buffer_code state (length page.now) false pa size csize }
    ensures result_value { number_of result ≡ challenge_number state (length page.now) pa size csize }
{
    match buffer_of(state, page.len(), false, pa, size, csize) {
        Ok(_) => Code::Ok,
        Err(code) => code,
    }
}

// Returns the challenge of a start, as a part of the page; empty if a check fails.
pub fn challenge(state: Record, page: &[u8], pa: u64, size: u64, csize: u64) -> &[u8]
    ensures result_value { result.now ≡ challenge_of state page.now pa size csize }
    ensures ref_ptr_value { result.ref_ptr ≡ on_from page.entry.ref_ptr (challenge_span state page.now pa size csize).at }
{
    words::part_of(page, challenge_place(state, page, pa, size, csize))
}
