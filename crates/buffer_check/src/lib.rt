// The checks that every command and lookup on the page starts with: record, page and the range of its buffer.
#![tactic(auto)]

ghost use Rattle.std.specs.Prelude.{◌≡◌, pos};
ghost use Rattle.codes.specs.Codes.{boot_params, gated, gate_number};
ghost use Rattle.buffer_check.specs.Range.{outside_code, range_code, place_of, page_code, page_number};

use boot::{Params, Record};
use codes::Code;

// The code that a command gives to a buffer outside the page: BAD_ADDR (CM4.2, CM5.3) or INVAL (CM7.3). An enum of its own, since `passed`
// (proofs/Ranges.antt) would not hold of a command that gave OK.
#[derive(Clone, Copy)]
pub enum OutsideAs {
    BadAddress,
    Invalid,
}

impl From<OutsideAs> for Code {
    ghost from_gives = { λ out code. code ≡ outside_code out };

    fn from(out: OutsideAs) -> Code {
        match out {
            OutsideAs::BadAddress => Code::BadAddr,
            OutsideAs::Invalid => Code::Inval,
        }
    }
}

// Checks a buffer of `size` bytes at `pa` and returns its offset in the page. A buffer that starts in the kept bytes is outside (KB2).
// Subtracts instead of adding, because a sum could overflow.
fn range_gate(params: Params, out: OutsideAs, pa: u64, size: u64) -> Result<usize, Code>
    ensures { result ≡ gated (range_code params out pa size) (place_of params pa) }
{
    let base = params.base;
    if pa < base {
        return Err(out.into());
    }
    let at = pa - base;
    if at < params.kept {
        return Err(out.into());
    }
    if words::PAGE_SIZE <= at {
        return Err(out.into());
    }
    if words::PAGE_SIZE - at < size {
        return Err(Code::Inval);
    }
    Ok(at as usize)
}

// Runs the common checks of a command on a page of `len` bytes: the record is up, the page has 4,096 bytes, the command's own check
// `first`, the buffer's range. Returns the buffer's offset in the page, or the code of the first check that fails. `first` is no `Result`:
// clause `value` takes its code, and does not hold for an `Err` of the code OK.
pub fn page_gate(
    state: Record,
    len: usize,
    first: Code,
    out: OutsideAs,
    pa: u64,
    size: u64,
) -> Result<usize, Code>
    ensures value { result ≡ gated (page_code state len first out pa size) (place_of (boot_params state) pa) }
    ensures result_value { gate_number result ≡ page_number state len first out pa size (pos 0) }
{
    let params = codes::up_params(state)?;
    if len != words::PAGE_LEN {
        return Err(Code::Unk);
    }
    if first != Code::Ok {
        return Err(first);
    }
    range_gate(params, out, pa, size)
}
