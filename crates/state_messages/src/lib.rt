// GET_STATEBLOB of swtpm's control channel: the request for a piece of a state blob and the response that carries one, read from and written to lent
// slices. Every number has 4 bytes, big-endian. `kind` is the type of a blob.
#![tactic(auto)]

ghost use Rattle.std.specs.Prelude.{◌≡◌, ◌+◌, ◌≤◌, length, drop, OnOk};
ghost use Rattle.words.specs.Word.{splice, on_from};
ghost use Rattle.big_words.specs.Big.{be_bytes, big_at};
ghost use Rattle.state_messages.specs.Numbers.{state_refusal_number};
ghost use Rattle.state_messages.specs.Messages.{head_bytes, read_request, read_response, response_read, Message, write_request, response_of, write_response, length_verdict, largest_verdict, room_verdict};

// A request: the command code, state_flags, the type of blob, and the offset of the piece in the blob.
#[derive(Clone, Copy, PartialEq, Eq)]
pub struct StateRequest {
    pub code: u32,
    pub flags: u32,
    pub kind: u32,
    pub offset: u32,
}

// The numbers of a response to write: tpm_result, state_flags and totlength. The length field is the length of the data.
#[derive(Clone, Copy, PartialEq, Eq)]
pub struct ResponseHeader {
    pub result: u32,
    pub flags: u32,
    pub total: u32,
}

// An accepted response: state_flags, totlength, and its data as the bytes [at, at + len) of the message.
// `at` and `len` stay numbers: `pbeam_swtpm_read_response` gives both to C.
#[derive(Clone, Copy, PartialEq, Eq)]
pub struct Piece {
    pub flags: u32,
    pub total: u32,
    pub at: u32,
    pub len: u32,
}

// Why a message, a buffer or a piece is refused: the reader's reasons in order, the writer's second one, then the collector's. No message is both cut
// short and too long, so these two share one place in the order.
#[derive(Clone, Copy, PartialEq, Eq)]
pub enum StateRefusal {
    CutShort,
    TooLong,
    WrongCode,
    AboveLargest,
    Failed,
    NoRoom,
    TotalDiffers,
    PastTotal,
    PastBuffer,
    NoData,
}

// The number of a refusal, from 1 to 10.
impl From<StateRefusal> for u32 {
    ghost from_gives = { λ why n. n ≡ state_refusal_number why };

    fn from(why: StateRefusal) -> u32 {
        match why {
            StateRefusal::CutShort => 1,
            StateRefusal::TooLong => 2,
            StateRefusal::WrongCode => 3,
            StateRefusal::AboveLargest => 4,
            StateRefusal::Failed => 5,
            StateRefusal::NoRoom => 6,
            StateRefusal::TotalDiffers => 7,
            StateRefusal::PastTotal => 8,
            StateRefusal::PastBuffer => 9,
            StateRefusal::NoData => 10,
        }
    }
}

// The 4-byte number at offset `at`, which must be within the slice.
fn number_at(s: &[u8], at: usize) -> u32
    requires { at + 4 ≤ length s.now }
    ensures { result ≡ big_at 4 at s.now }
{
    big_words::big_at(s, at)
}

// Refuses a message that is not `whole` bytes long.
fn check_length(message: &[u8], whole: usize) -> Result<(), StateRefusal>
    ensures verdict { result ≡ length_verdict (length message.now) whole }
    ensures ok { OnOk result (length message.now ≡ whole) }
{
    if message.len() < whole {
        return Err(StateRefusal::CutShort);
    }
    if whole < message.len() {
        return Err(StateRefusal::TooLong);
    }
    Ok(())
}

// Refuses data of more than `largest` bytes.
fn check_largest(len: usize, largest: u32) -> Result<(), StateRefusal>
    ensures verdict { result ≡ largest_verdict len largest }
    ensures ok { OnOk result (len ≤ largest) }
{
    if (largest as usize) < len {
        return Err(StateRefusal::AboveLargest);
    }
    Ok(())
}

// Refuses a buffer without room for `whole` bytes.
fn check_room(buffer: &[u8], whole: usize) -> Result<(), StateRefusal>
    ensures verdict { result ≡ room_verdict (length buffer.now) whole }
    ensures ok { OnOk result (whole ≤ length buffer.now) }
{
    if buffer.len() < whole {
        return Err(StateRefusal::NoRoom);
    }
    Ok(())
}

// Reads a request, whose command code must be `code`.
#[tactic(auto, unfolding(crate::specs::Messages::read_request, crate::specs::Messages::request_parts))]
pub fn read_request(message: &[u8], code: u32) -> Result<StateRequest, StateRefusal>
    ensures { result ≡ read_request code message.now }
{
    check_length(message, 16)?;
    let own = number_at(message, 0);
    if own != code {
        return Err(StateRefusal::WrongCode);
    }
    Ok(StateRequest {
        code: own,
        flags: number_at(message, 4),
        kind: number_at(message, 8),
        offset: number_at(message, 12),
    })
}

// 16 + len, the length of a response with `len` bytes of data. 64 bits, because the sum could overflow 32.
fn response_length(len: u32) -> usize
    ensures { result ≡ 16 + len }
{
    16 + len as usize
}

// Reads a response, whose data must have at most `largest` bytes.
#[tactic(auto, unfolding(crate::specs::Messages::read_response, crate::specs::Messages::response_read, crate::specs::Messages::response_parts))]
pub fn read_response(message: &[u8], largest: u32) -> Result<Piece, StateRefusal>
    ensures { result ≡ response_read (read_response largest message.now) }
{
    if message.len() < 16 {
        return Err(StateRefusal::CutShort);
    }
    let len = number_at(message, 12);
    check_length(message, response_length(len))?;
    check_largest(len as usize, largest)?;
    if number_at(message, 0) != 0 {
        return Err(StateRefusal::Failed);
    }
    Ok(Piece {
        flags: number_at(message, 4),
        total: number_at(message, 8),
        at: 16,
        len,
    })
}

// The data of an accepted response, as a slice of the message: the bytes after the four numbers.
pub fn data_of(message: &[u8]) -> &[u8]
    ensures result_value { result.now ≡ drop 16 message.now }
    ensures ref_ptr_value { 16 ≤ length message.now → result.ref_ptr ≡ on_from message.entry.ref_ptr 16 }
{
    if message.len() < 16 {
        return &message[0..0];
    }
    &message[16..]
}

// Writes `w` at offset `at`, which must be within the slice.
fn put_number(s: &mut [u8], at: usize, w: u32)
    requires { at + 4 ≤ length s.old }
    ensures { s.new ≡ splice at (be_bytes 4 w) s.old }
{
    big_words::put_big(s, at, w);
}

// Writes the four numbers at the start of a message.
fn put_head(s: &mut [u8], a: u32, b: u32, c: u32, d: u32)
    requires { 16 ≤ length s.old }
    ensures { s.new ≡ splice 0 (head_bytes a b c d) s.old }
{
    put_number(s, 0, a);
    put_number(s, 4, b);
    put_number(s, 8, c);
    put_number(s, 12, d);
}

// Writes a request at the start of the buffer. Returns its length.
#[tactic(auto, using(crate::proofs::Writes::request_length), unfolding(crate::specs::Messages::write_request, crate::specs::Messages::write_message, crate::specs::Messages::request_message))]
pub fn write_request(buffer: &mut [u8], request: StateRequest) -> Result<usize, StateRefusal>
    ensures { ◌≡◌ {A = Message} (record { answer = result; buffer = buffer.new }) (write_request request buffer.old) }
{
    check_room(buffer, 16)?;
    put_head(
        buffer,
        request.code,
        request.flags,
        request.kind,
        request.offset,
    );
    Ok(16)
}

// Writes a response with the data `bytes` at the start of the buffer. Returns its length. Refuses data longer than `largest`.
#[tactic(auto, using(crate::proofs::Writes::response_length), unfolding(crate::specs::Messages::write_response, crate::specs::Messages::write_message))]
pub fn write_response(
    buffer: &mut [u8],
    largest: u32,
    header: ResponseHeader,
    bytes: &[u8],
) -> Result<usize, StateRefusal>
    ensures { ◌≡◌ {A = Message} (record { answer = result; buffer = buffer.new })
        (write_response largest (response_of header bytes.now) buffer.old) }
{
    check_largest(bytes.len(), largest)?;
    let len = bytes.len() as u32;
    let whole = response_length(len);
    check_room(buffer, whole)?;
    put_head(buffer, header.result, header.flags, header.total, len);
    words::copy_by_words(&mut buffer[16..], bytes);
    Ok(whole)
}
