// H_TPM_COMM for C and Rust. The session is a lent word; r3 is the return value, and r4 goes to a lent word.
#![tactic(auto)]

ghost use Rattle.std.specs.Prelude.{◌≡◌, cond, length};
ghost use Rattle.tpm.specs.ReturnCodes.{is_success};
ghost use Rattle.tpm.specs.Comm.{tpm_request_span};
ghost use Rattle.potterbeam_tpm.specs.Exports.{arguments_of, tpm_session_of, tpm_session_word, left_by, says as Exports·says, comm_in, place_words};

use tpm::{Arguments, ReturnCode, TpmSession};

// The session of a word: any number except 0 is open. No From: both types would be of other crates.
#[tactic(auto, unfolding(crate::specs::Exports::tpm_session_of))]
fn session_of(word: u64) -> TpmSession
    ensures { result ≡ tpm_session_of word }
{
    if word == 0 {
        TpmSession::None
    } else {
        TpmSession::Open
    }
}

// The word of a session: 0 none, 1 open.
#[tactic(auto, unfolding(crate::specs::Exports::tpm_session_word))]
fn session_word(session: TpmSession) -> u64
    ensures { result ≡ tpm_session_word session }
{
    match session {
        TpmSession::None => 0,
        TpmSession::Open => 1,
    }
}

// The session's word after a call: the new one if the call is accepted, otherwise unchanged.
#[tactic(auto, unfolding(tpm::specs::ReturnCodes::is_success))]
fn word_after(code: ReturnCode, session: TpmSession, word: u64) -> u64
    ensures { result ≡ cond (is_success code) (tpm_session_word session) word }
{
    if code == ReturnCode::Success {
        session_word(session)
    } else {
        word
    }
}

// A flag of the platform: any number except 0 is true.
#[tactic(auto, unfolding(crate::specs::Exports::says))]
fn says(flag: u64) -> bool
    ensures { result ≡ Exports·says flag }
{
    flag != 0
}

// H_TPM_COMM. Returns r3, and writes r4 and the session's word.
#[unsafe(no_mangle)]
pub extern "C" fn pbeam_tpm_comm(
    session: &mut u64,
    operation: u64,
    inbuffer: u64,
    insize: u64,
    outbuffer: u64,
    outsize: u64,
    memory: &mut [u8],
    response: &[u8],
    forbidden: u64,
    fault: u64,
    r4: &mut u64,
) -> i64
    ensures { left_by result r4.new session.new memory.new
        ≡ comm_in session.old (arguments_of operation inbuffer insize outbuffer outsize) memory.old response.now forbidden fault }
{
    let word = *session;
    let asked = Arguments {
        operation,
        inbuffer,
        insize,
        outbuffer,
        outsize,
    };
    let returned = tpm::comm(
        session_of(word),
        asked,
        memory,
        response,
        says(forbidden),
        says(fault),
    );
    let code = returned.code;
    let next = returned.session;
    *session = word_after(code, next, word);
    *r4 = returned.r4;
    i64::from(code)
}

// Sets `place` to offset and length of the request in the memory; both 0 if there is no request.
#[unsafe(no_mangle)]
pub extern "C" fn pbeam_tpm_request(
    operation: u64,
    inbuffer: u64,
    insize: u64,
    outbuffer: u64,
    outsize: u64,
    memory: &[u8],
    forbidden: u64,
    place: &mut [u64; 2],
)
    ensures { place.new ≡ place_words (tpm_request_span (arguments_of operation inbuffer insize outbuffer outsize) (length memory.now) (Exports·says forbidden)) }
{
    let asked = Arguments {
        operation,
        inbuffer,
        insize,
        outbuffer,
        outsize,
    };
    let span = tpm::request_place(asked, memory, says(forbidden));
    *place = [span.at as u64, span.len as u64];
}

// The archive's version, 0.4.0, as major * 65,536 + minor * 256 + patch. include/potterbeam_tpm.h refers to this name, so an object that was compiled with
// the header of another version does not link.
#[unsafe(no_mangle)]
pub extern "C" fn pbeam_tpm_version_0_4_0() -> u64
    ensures { result ≡ 1024 }
{
    1024
}
