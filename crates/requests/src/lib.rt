// Requests: read from their buffer and pushed to the queue.
#![tactic(auto)]

ghost use Rattle.std.specs.Prelude.{◌≡◌, List, ℕ, ◌≤◌, length};
ghost use Rattle.codes.specs.Codes.{gated};
ghost use Rattle.queue.specs.Queue.{Lists, lists_of, signing_exit, exit_of};
ghost use Rattle.queue_image.specs.OnImage.{ImageStep};
ghost use Rattle.request_rules.specs.Push.{request_of, push_code, push_of};
ghost use Rattle.request_rules.specs.OnImage.{push_on};

use codes::{Answer, Code};
use queue::{Queue, QueueResult, Request};
use queue_image::QueueImage;

// A request in its buffer: its length in bytes and the offsets of its fields.
const REQUEST_BYTES: usize = 80;

const REQUEST_ALGORITHM: usize = 0;

const REQUEST_GRANULE: usize = 8;

const REQUEST_TICKET: usize = 16;

const REQUEST_HASH_ID: usize = 24;

const REQUEST_HASH: usize = 32;

// The only algorithm and the only hash id.
const ALGORITHM_SECP384R1: u64 = 0;

const HASH_SHA2_384: u64 = 1;

// Reads the request in a buffer of 80 bytes or more; the bytes between its fields are not read.
fn request_of(buffer: &[u8]) -> Request
    requires { 80 ≤ length buffer.now }
    ensures { result ≡ request_of buffer.now }
{
    let mut hash = [0u8; queue::HASH_BYTES];
    words::copy(&mut hash, &buffer[REQUEST_HASH..REQUEST_BYTES]);
    Request {
        algorithm: words::u32_at(buffer, REQUEST_ALGORITHM),
        granule: words::word_at(buffer, REQUEST_GRANULE),
        ticket: words::word_at(buffer, REQUEST_TICKET),
        hashid: words::u32_at(buffer, REQUEST_HASH_ID),
        hash,
    }
}

// Reads the request once and runs the push checks on that copy, with `waiting` requests (CM7.7 to CM7.10).
fn checked_request(buffer: &[u8], waiting: usize) -> Result<Request, Code>
    ensures { (q : Lists) → length q.requests ≡ waiting → result ≡ gated (push_code buffer.now q) (request_of buffer.now) }
{
    if buffer.len() < REQUEST_BYTES {
        return Err(Code::Inval);
    }
    let request = request_of(buffer);
    if request.algorithm != ALGORITHM_SECP384R1 {
        return Err(Code::Inval);
    }
    if request.hashid != HASH_SHA2_384 {
        return Err(Code::Inval);
    }
    if queue::PLACES <= waiting {
        return Err(Code::Again);
    }
    Ok(request)
}

// Push: the request in the buffer joins the end of those that wait. Reads the request once and checks that copy, so a page that changes
// during the call cannot change what joins.
pub fn push(buffer: &[u8], queue: Queue) -> QueueResult
    ensures { signing_exit result buffer.now ≡ exit_of queue (push_of buffer.now (lists_of queue)) }
{
    match checked_request(buffer, queue.requests.waiting().len()) {
        Ok(request) => QueueResult {
            answer: Answer::ok(0, 0),
            queue: Queue {
                requests: queue.requests.joined(request),
                responses: queue.responses.after(0),
            },
        },
        Err(code) => queue::refused(code, queue),
    }
}

// Push on the queue's image: all checks run before the first word is written, and only the requests' side changes. Also reads the
// request only once.
pub fn push_image(buffer: &[u8], image: &mut QueueImage) -> Answer
    ensures { ◌≡◌ {A = ImageStep} (record { answer = result; page = buffer.now; image = image.new }) (push_on buffer.now image.old) }
{
    match checked_request(buffer, queue_image::requests_waiting(image)) {
        Ok(request) => {
            queue_image::add_request(image, request);
            Answer::ok(0, 0)
        }
        Err(code) => Answer::refused(code),
    }
}
