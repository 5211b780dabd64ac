// H_TPM_COMM, the hypervisor's side: a guest sends a request to a TPM and gets the response, or closes its TPM session. The guest memory is
// lent from guest address 0 on, so a guest physical address is an offset into it.
#![tactic(auto)]

ghost use Rattle.std.specs.Prelude.{◌≡◌, length, false, IfErr};
ghost use Rattle.words.specs.Word.{on_from};
ghost use Rattle.tpm.specs.declared.TpmSession.TheVariants.{None};
ghost use Rattle.tpm.specs.ReturnCodes.{hcall_number, is_success, code_of};
ghost use Rattle.tpm.specs.Comm.{buffer_checks, buffers_checks, request_code, step_left, comm_of, tpm_request, tpm_request_span};

use words::Span;

// The most bytes of a request, and the fewest of the buffer for the response.
const IN_SIZE_MOST: u64 = 4096;

const OUT_SIZE_LEAST: u64 = 4096;

// The return codes of H_TPM_COMM, without their H_ (TP3). Success stays: H_SUCCESS is one of the codes that the interface lists; the checks
// return a `Result`.
#[derive(Clone, Copy, PartialEq, Eq)]
pub enum ReturnCode {
    Success,
    Function,
    Parameter,
    P2,
    P3,
    P4,
    P5,
    Resource,
}

// Whether the guest has a TPM session. No bool: `comm` takes two of these already, and a session is no plainer as a third.
#[derive(Clone, Copy, PartialEq, Eq)]
pub enum TpmSession {
    None,
    Open,
}

impl TpmSession {
    // No session.
    pub fn none() -> Self
        ensures { result ≡ None }
    {
        TpmSession::None
    }
}

// What a call returns: r3 by name, r4, and the session after it.
#[derive(Clone, Copy)]
pub struct CommResult {
    pub code: ReturnCode,
    pub r4: u64,
    pub session: TpmSession,
}

// The arguments of H_TPM_COMM, r4 to r8 (TP1): the operation (1 execute, 2 close), address and size of the request, address and size
// of the output.
#[derive(Clone, Copy)]
pub struct Arguments {
    pub operation: u64,
    pub inbuffer: u64,
    pub insize: u64,
    pub outbuffer: u64,
    pub outsize: u64,
}

// The number of a return code, as in r3.
impl From<ReturnCode> for i64 {
    ghost from_gives = { λ code n. n ≡ hcall_number code };

    fn from(code: ReturnCode) -> i64 {
        match code {
            ReturnCode::Success => 0,
            ReturnCode::Function => -2,
            ReturnCode::Parameter => -4,
            ReturnCode::Resource => -16,
            ReturnCode::P2 => -55,
            ReturnCode::P3 => -56,
            ReturnCode::P4 => -57,
            ReturnCode::P5 => -58,
        }
    }
}

// Checks one buffer in a memory of `len` bytes: its start, then its size (`unfit` if the caller rejects it by itself), then its end.
// Subtracts, because the sum could overflow.
#[tactic(auto, unfolding(crate::specs::Comm::buffer_checks, crate::specs::ReturnCodes::returns_if, words::specs::Tests::either))]
fn buffer_check(
    outside: ReturnCode,
    badsize: ReturnCode,
    unfit: bool,
    start: u64,
    size: u64,
    len: u64,
) -> Result<(), ReturnCode>
    ensures code { code_of result ≡ buffer_checks outside badsize unfit start size len ReturnCode.Success }
    ensures err { is_success outside ≡ false → is_success badsize ≡ false → IfErr result (λ code. is_success code ≡ false) }
{
    if len <= start {
        return Err(outside);
    }
    if unfit {
        return Err(badsize);
    }
    if len - start < size {
        return Err(badsize);
    }
    Ok(())
}

// Checks the request's buffer, then the output's.
#[tactic(auto, unfolding(crate::specs::ReturnCodes::is_success))]
fn buffers_check(asked: Arguments, n: u64) -> Result<(), ReturnCode>
    ensures code { code_of result ≡ buffers_checks asked n ReturnCode.Success }
    ensures err { IfErr result (λ code. is_success code ≡ false) }
{
    let inbuffer = asked.inbuffer;
    let insize = asked.insize;
    let outbuffer = asked.outbuffer;
    let outsize = asked.outsize;
    let large = IN_SIZE_MOST < insize;
    let small = outsize < OUT_SIZE_LEAST;
    buffer_check(ReturnCode::P2, ReturnCode::P3, large, inbuffer, insize, n)?;
    buffer_check(ReturnCode::P4, ReturnCode::P5, small, outbuffer, outsize, n)
}

// All checks before H_RESOURCE.
#[tactic(auto, unfolding(crate::specs::ReturnCodes::is_success, crate::specs::ReturnCodes::returns_if, crate::specs::Comm::request_code, crate::specs::Comm::call_checks, crate::specs::Comm::is_execute, crate::specs::Comm::is_close, words::specs::Tests::either))]
fn request_check(asked: Arguments, len: u64, forbidden: bool) -> Result<(), ReturnCode>
    ensures code { code_of result ≡ request_code asked len forbidden }
    ensures err { IfErr result (λ code. is_success code ≡ false) }
{
    if forbidden {
        return Err(ReturnCode::Function);
    }
    let operation = asked.operation;
    if operation == 2 {
        return Ok(());
    }
    if operation != 1 {
        return Err(ReturnCode::Parameter);
    }
    buffers_check(asked, len)
}

// H_TPM_COMM. Execute writes the platform's response at `outbuffer` and opens a session unless one is open; r4 is the length of the
// response. Close closes the session. A refused call changes nothing. Read the request before this call: the response may overwrite it.
pub fn comm(
    session: TpmSession,
    asked: Arguments,
    memory: &mut [u8],
    response: &[u8],
    forbidden: bool,
    fault: bool,
) -> CommResult
    ensures { step_left result memory.new ≡ comm_of session asked memory.old response.now forbidden fault }
{
    if let Err(code) = request_check(asked, memory.len() as u64, forbidden) {
        return CommResult {
            code,
            r4: 0,
            session,
        };
    }
    let operation = asked.operation;
    if operation != 1 {
        return CommResult {
            code: ReturnCode::Success,
            r4: 0,
            session: TpmSession::None,
        };
    }
    if fault {
        return CommResult {
            code: ReturnCode::Resource,
            r4: 0,
            session,
        };
    }
    let outsize = asked.outsize;
    let written = response.len() as u64;
    if outsize < written {
        return CommResult {
            code: ReturnCode::Resource,
            r4: 0,
            session,
        };
    }
    let at = asked.outbuffer as usize;
    words::copy_by_words(&mut memory[at..], response);
    CommResult {
        code: ReturnCode::Success,
        r4: written,
        session: TpmSession::Open,
    }
}

// The offset and length of an execute's request in the memory; both 0 for close, or if a check before H_RESOURCE refuses.
pub fn request_place(asked: Arguments, memory: &[u8], forbidden: bool) -> Span
    ensures { result ≡ tpm_request_span asked (length memory.now) forbidden }
{
    let operation = asked.operation;
    if operation != 1 {
        return Span { at: 0, len: 0 };
    }
    match request_check(asked, memory.len() as u64, forbidden) {
        Ok(()) => words::span_at(asked.inbuffer as usize, asked.insize as usize),
        Err(_) => Span { at: 0, len: 0 },
    }
}

// The request of an execute, as a slice of the memory; empty for close, or if a check before H_RESOURCE refuses.
pub fn request(asked: Arguments, memory: &[u8], forbidden: bool) -> &[u8]
    ensures result_value { result.now ≡ tpm_request asked memory.now forbidden }
    ensures ref_ptr_value { result.ref_ptr ≡ on_from memory.entry.ref_ptr (tpm_request_span asked (length memory.now) forbidden).at }
{
    let place = request_place(asked, memory, forbidden);
    words::part_of(memory, place)
}
