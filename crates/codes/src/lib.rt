// The runtime codes and the answer of a command.
#![tactic(auto)]

ghost use Rattle.std.specs.Prelude.{◌≡◌, cond, pos};
ghost use Rattle.codes.specs.Codes.{number_of, x0_of, answer_of, fails, is_up, boot_params, when_up, gated};

use boot::{Params, Record};

// The code of a runtime command (RT1). Checks return a `Result` with the code of the first that fails as its error; `Ok` is the code of an
// answer.
#[derive(Clone, Copy, PartialEq, Eq)]
pub enum Code {
    Ok,
    Unk,
    BadAddr,
    BadPas,
    Inval,
    Again,
}

// The answer of a command: its code and the result registers. x0 holds the code; an unused register is 0.
#[derive(Clone, Copy)]
pub struct Answer {
    pub code: Code,
    pub x0: u64,
    pub x1: u64,
    pub x2: u64,
}

// What the platform must do after the answer. No `Option<u64>`, which is no plainer: the number is the mecid to reprogram.
#[derive(Clone, Copy)]
pub enum Work {
    Nothing,
    Reprogram(u64),
}

impl From<Code> for u64 {
    ghost from_gives = { λ code x0. x0 ≡ x0_of code };

    // Returns the code sign-extended to 64 bits, as x0 holds it (RT2).
    fn from(code: Code) -> u64 {
        match code {
            Code::Ok => 0,
            Code::Unk => 0xFFFF_FFFF_FFFF_FFFF,
            Code::BadAddr => 0xFFFF_FFFF_FFFF_FFFE,
            Code::BadPas => 0xFFFF_FFFF_FFFF_FFFD,
            Code::Inval => 0xFFFF_FFFF_FFFF_FFFB,
            Code::Again => 0xFFFF_FFFF_FFFF_FFFA,
        }
    }
}

impl Answer {
    // Returns OK with x1 and x2.
    pub fn ok(x1: u64, x2: u64) -> Self
        ensures { result ≡ answer_of Code.Ok x1 x2 }
    {
        answer_with(Code::Ok, x1, x2)
    }

    // Returns the answer of a code alone: x1 and x2 are 0 (RT2).
    pub fn refused(code: Code) -> Self
        ensures { result ≡ answer_of code 0 0 }
    {
        answer_with(code, 0, 0)
    }
}

// Returns the code sign-extended to 64 bits, as x0 holds it (RT2).
pub fn x0(code: Code) -> u64
    ensures { result ≡ x0_of code }
{
    u64::from(code)
}

// Returns the answer with this code, x1 and x2.
pub fn answer_with(code: Code, x1: u64, x2: u64) -> Answer
    ensures { result ≡ answer_of code x1 x2 }
{
    Answer {
        code,
        x0: u64::from(code),
        x1,
        x2,
    }
}

// Returns `code` if the test holds, otherwise OK: the `first` of `buffer_check::page_gate`.
pub fn code_if(test: bool, code: Code) -> Code
    ensures value { result ≡ fails test code Code.Ok }
    ensures result_value { number_of result ≡ cond test (number_of code) (pos 0) }
{
    if test { code } else { Code::Ok }
}

// Whether a boot record is up.
pub fn is_up(state: Record) -> bool
    ensures { result ≡ is_up state }
{
    matches!(state, Record::Up(_))
}

// Returns what a boot record keeps; zeros if it is not up.
pub fn boot_params(state: Record) -> Params
    ensures { result ≡ boot_params state }
{
    match state {
        Record::Up(params) => params,
        Record::Fresh | Record::Closed => Params {
            cpus: 0,
            base: 0,
            minor: 0,
            kept: 0,
        },
    }
}

// Returns what the boot record keeps while it is up, otherwise UNK, the code of every command that needs it (RT6).
pub fn up_params(state: Record) -> Result<Params, Code>
    ensures { result ≡ gated (when_up state Code.Ok) (boot_params state) }
{
    if is_up(state) {
        Ok(boot_params(state))
    } else {
        Err(Code::Unk)
    }
}
