// The exports for C of `potterbeam_swtpm`: each calls the function of its name there and states its clauses.
#![tactic(auto)]

ghost use Rattle.std.specs.Prelude.{◌≡◌};
ghost use Rattle.state_messages.specs.Messages.{read_request, read_response, response_read, write_request, write_response};
ghost use Rattle.state_blobs.specs.Collect.{is_complete, collect};
ghost use Rattle.potterbeam_swtpm.specs.Exports.{PartsLeft, request_left, response_left, WriteLeft, write_left, CollectLeft, collect_left, collector_of};

// Reads a request, whose command code must be `code`. Sets `parts` to code, state_flags, type and offset.
#[unsafe(no_mangle)]
pub extern "C" fn pbeam_swtpm_read_request(message: &[u8], code: u32, parts: &mut [u32; 4]) -> u32
    ensures { ◌≡◌ {A = PartsLeft} (record { answer = result; parts = parts.new })
        (request_left (read_request code message.now) parts.old) }
{
    potterbeam_swtpm::pbeam_swtpm_read_request(message, code, parts)
}

// Writes a request at the start of the buffer, and its length to `len`.
#[unsafe(no_mangle)]
pub extern "C" fn pbeam_swtpm_write_request(
    buffer: &mut [u8],
    code: u32,
    flags: u32,
    kind: u32,
    offset: u32,
    len: &mut usize,
) -> u32
    ensures { ◌≡◌ {A = WriteLeft} (record { answer = result; len = len.new; buffer = buffer.new })
        (write_left (write_request (record { code = code; flags = flags; kind = kind; offset = offset }) buffer.old) len.old) }
{
    potterbeam_swtpm::pbeam_swtpm_write_request(buffer, code, flags, kind, offset, len)
}

// Reads a response. Sets `parts` to state_flags, totlength, and the offset and length of its data in the message.
#[unsafe(no_mangle)]
pub extern "C" fn pbeam_swtpm_read_response(
    message: &[u8],
    largest: u32,
    parts: &mut [u32; 4],
) -> u32
    ensures { ◌≡◌ {A = PartsLeft} (record { answer = result; parts = parts.new })
        (response_left (response_read (read_response largest message.now)) parts.old) }
{
    potterbeam_swtpm::pbeam_swtpm_read_response(message, largest, parts)
}

// Writes a response with the given data at the start of the buffer, and its length to `len`.
#[unsafe(no_mangle)]
pub extern "C" fn pbeam_swtpm_write_response(
    buffer: &mut [u8],
    largest: u32,
    res: u32,
    flags: u32,
    total: u32,
    bytes: &[u8],
    len: &mut usize,
) -> u32
    ensures { ◌≡◌ {A = WriteLeft} (record { answer = result; len = len.new; buffer = buffer.new })
        (write_left (write_response largest (record { result = res; flags = flags; total = total; bytes = bytes.now }) buffer.old) len.old) }
{
    potterbeam_swtpm::pbeam_swtpm_write_response(buffer, largest, res, flags, total, bytes, len)
}

// Adds the data of a response to the bytes held in the buffer.
#[unsafe(no_mangle)]
pub extern "C" fn pbeam_swtpm_collect(
    image: &mut [u32; 3],
    message: &[u8],
    largest: u32,
    buffer: &mut [u8],
) -> u32
    ensures { ◌≡◌ {A = CollectLeft} (record { answer = result; image = image.new; buffer = buffer.new })
        (collect_left (collect largest message.now (collector_of image.old) buffer.old) image.old) }
{
    potterbeam_swtpm::pbeam_swtpm_collect(image, message, largest, buffer)
}

// Whether the whole blob is held.
#[unsafe(no_mangle)]
pub extern "C" fn pbeam_swtpm_complete(image: &[u32; 3]) -> bool
    ensures { result ≡ is_complete (collector_of image.now) }
{
    potterbeam_swtpm::pbeam_swtpm_complete(image)
}

// The number of bytes held: the offset to ask for next.
#[unsafe(no_mangle)]
pub extern "C" fn pbeam_swtpm_held(image: &[u32; 3]) -> u32
    ensures { result ≡ (collector_of image.now).held }
{
    potterbeam_swtpm::pbeam_swtpm_held(image)
}

// The archive's version, 0.4.0, as major * 65,536 + minor * 256 + patch. include/potterbeam_swtpm.h refers to this name, so an object that was compiled with
// the header of another version does not link.
#[unsafe(no_mangle)]
pub extern "C" fn pbeam_swtpm_version_0_4_0() -> u64
    ensures { result ≡ 1024 }
{
    potterbeam_swtpm::pbeam_swtpm_version_0_4_0()
}
