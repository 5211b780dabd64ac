// State blobs for C and Rust; every function has the prefix pbeam_swtpm, and `potterbeam_swtpm_c` exports each under its name. A collector
// is a lent image of three 32-bit words. A call that can be refused
// returns 0 or the number of the refusal, and a refused call leaves every lent word and byte unchanged.
#![tactic(auto)]

ghost use Rattle.std.specs.Prelude.{◌≡◌, ℕ, List};
ghost use Rattle.state_messages.specs.Messages.{read_request, read_response, response_read, write_request, write_response};
ghost use Rattle.state_blobs.specs.Collect.{is_complete, collect};
ghost use Rattle.potterbeam_swtpm.specs.Exports.{written_left, PartsLeft, request_left, response_left, WriteLeft, write_left, CollectLeft, collect_left, collector_of, words_of};

use state_blobs::Collector;
use state_messages::{ResponseHeader, StateRefusal, StateRequest};

// Puts the length of a message that was written into the word lent for it. Returns 0 or the number of the refusal, which leaves that word as it was.
#[tactic(auto, unfolding(crate::specs::Exports::written_left))]
fn put_length(written: Result<usize, StateRefusal>, len: &mut usize) -> u32
    ensures { (b : List ℕ) → ◌≡◌ {A = WriteLeft} (record { answer = result; len = len.new; buffer = b }) (written_left written len.old b) }
{
    match written {
        Ok(n) => {
            *len = n;
            0
        }
        Err(why) => u32::from(why),
    }
}

// Reads a request, whose command code must be `code`. Sets `parts` to code, state_flags, type and offset.
#[tactic(auto, unfolding(crate::specs::Exports::request_left))]
pub fn pbeam_swtpm_read_request(message: &[u8], code: u32, parts: &mut [u32; 4]) -> u32
    ensures { ◌≡◌ {A = PartsLeft} (record { answer = result; parts = parts.new })
        (request_left (read_request code message.now) parts.old) }
{
    match state_messages::read_request(message, code) {
        Ok(q) => {
            *parts = [q.code, q.flags, q.kind, q.offset];
            0
        }
        Err(why) => u32::from(why),
    }
}

// Writes a request at the start of the buffer, and its length to `len`.
#[tactic(auto, unfolding(crate::specs::Exports::written_left))]
pub fn pbeam_swtpm_write_request(
    buffer: &mut [u8],
    code: u32,
    flags: u32,
    kind: u32,
    offset: u32,
    len: &mut usize,
) -> u32
    ensures { ◌≡◌ {A = WriteLeft} (record { answer = result; len = len.new; buffer = buffer.new })
        (write_left (write_request (record { code = code; flags = flags; kind = kind; offset = offset }) buffer.old) len.old) }
{
    let request = StateRequest {
        code,
        flags,
        kind,
        offset,
    };
    put_length(state_messages::write_request(buffer, request), len)
}

// Reads a response. Sets `parts` to state_flags, totlength, and the offset and length of its data in the message.
#[tactic(auto, unfolding(crate::specs::Exports::response_left))]
pub fn pbeam_swtpm_read_response(message: &[u8], largest: u32, parts: &mut [u32; 4]) -> u32
    ensures { ◌≡◌ {A = PartsLeft} (record { answer = result; parts = parts.new })
        (response_left (response_read (read_response largest message.now)) parts.old) }
{
    match state_messages::read_response(message, largest) {
        Ok(piece) => {
            *parts = [piece.flags, piece.total, piece.at, piece.len];
            0
        }
        Err(why) => u32::from(why),
    }
}

// Writes a response with the given data at the start of the buffer, and its length to `len`.
#[tactic(auto, unfolding(crate::specs::Exports::written_left))]
pub fn pbeam_swtpm_write_response(
    buffer: &mut [u8],
    largest: u32,
    res: u32,
    flags: u32,
    total: u32,
    bytes: &[u8],
    len: &mut usize,
) -> u32
    ensures { ◌≡◌ {A = WriteLeft} (record { answer = result; len = len.new; buffer = buffer.new })
        (write_left (write_response largest (record { result = res; flags = flags; total = total; bytes = bytes.now }) buffer.old) len.old) }
{
    let header = ResponseHeader {
        result: res,
        flags,
        total,
    };
    put_length(
        state_messages::write_response(buffer, largest, header, bytes),
        len,
    )
}

// The collector of an image; any first word except 0 means that a response was accepted.
#[tactic(auto, unfolding(crate::specs::Exports::collector_of))]
fn collector_of(image: &[u32; 3]) -> Collector
    ensures { result ≡ collector_of image.now }
{
    let [accepted, total, held] = *image;
    Collector {
        total: if accepted != 0 { Some(total) } else { None },
        held,
    }
}

// The image of a collector.
fn image_of(collector: Collector) -> [u32; 3]
    ensures { result ≡ words_of collector.total collector.held }
{
    match collector.total {
        Some(total) => [1, total, collector.held],
        None => [0, 0, collector.held],
    }
}

// Adds the data of a response to the bytes held in the buffer.
#[tactic(auto, unfolding(crate::specs::Exports::verdict_left))]
pub fn pbeam_swtpm_collect(
    image: &mut [u32; 3],
    message: &[u8],
    largest: u32,
    buffer: &mut [u8],
) -> u32
    ensures { ◌≡◌ {A = CollectLeft} (record { answer = result; image = image.new; buffer = buffer.new })
        (collect_left (collect largest message.now (collector_of image.old) buffer.old) image.old) }
{
    let mut collector = collector_of(image);
    match collector.collect(message, largest, buffer) {
        Ok(()) => {
            *image = image_of(collector);
            0
        }
        Err(why) => u32::from(why),
    }
}

// Whether the whole blob is held.
pub fn pbeam_swtpm_complete(image: &[u32; 3]) -> bool
    ensures { result ≡ is_complete (collector_of image.now) }
{
    collector_of(image).is_complete()
}

// The number of bytes held: the offset to ask for next.
pub fn pbeam_swtpm_held(image: &[u32; 3]) -> u32
    ensures { result ≡ (collector_of image.now).held }
{
    collector_of(image).held
}

// The archive's version, 0.4.0, as major * 65,536 + minor * 256 + patch. include/potterbeam_swtpm.h refers to this name, so an object that was compiled with
// the header of another version does not link.
pub fn pbeam_swtpm_version_0_4_0() -> u64
    ensures { result ≡ 1024 }
{
    1024
}
