// Responses: made by the signer's own step, and pulled into their buffer.
#![tactic(auto)]

ghost use Rattle.std.specs.Prelude.{◌≡◌, ◌+◌, ◌≤◌, length};
ghost use Rattle.words.specs.Word.{splice};
ghost use Rattle.codes.specs.Codes.{gated};
ghost use Rattle.queue.specs.Queue.{Lists, signed_in, lists_of, oldest_response, signing_exit, exit_of};
ghost use Rattle.queue_image.specs.OnImage.{ImageStep};
ghost use Rattle.response_rules.specs.Pull.{response_bytes, pull_code, pull_of};
ghost use Rattle.response_rules.specs.Sign.{sign_code, sign_of, sign_exit};
ghost use Rattle.response_rules.specs.OnImage.{pull_on, SignImage, sign_on};

use codes::{Answer, Code};
use queue::{Queue, QueueResult, Response};
use queue_image::QueueImage;

// Offsets of the fields of a response in its buffer. The signature is last.
const RESPONSE_GRANULE: usize = 0;

const RESPONSE_TICKET: usize = 8;

const RESPONSE_LENGTH: usize = 16;

const RESPONSE_SIGNATURE: usize = 18;

// Writes a response at the start of a buffer that is long enough.
fn put_response(buffer: &mut [u8], response: Response)
    requires { 18 + length (signed_in response).signature ≤ length buffer.old }
    ensures { buffer.new ≡ splice 0 (response_bytes (signed_in response)) buffer.old }
{
    let n = queue::signature_len(response);
    let signature = response.signature;
    words::put_word(buffer, RESPONSE_GRANULE, response.granule);
    words::put_word(buffer, RESPONSE_TICKET, response.ticket);
    words::put_u16(buffer, RESPONSE_LENGTH, n as u64);
    words::copy(&mut buffer[RESPONSE_SIGNATURE..], &signature[..n]);
}

// Runs the pull checks for a buffer of `size` bytes, `waiting` responses and an oldest signature of `len` bytes.
fn pull_checks(size: usize, waiting: usize, len: usize) -> Result<(), Code>
    requires { len ≤ 104 }
    ensures { (q : Lists) → length q.responses ≡ waiting → ((length q.responses ≡ 0 → ⊥) → length (oldest_response q.responses).signature ≡ len) → result ≡ gated (pull_code size q) tt }
{
    if waiting == 0 {
        return Err(Code::Again);
    }
    if size < RESPONSE_SIGNATURE + len {
        return Err(Code::Inval);
    }
    Ok(())
}

// Pull: writes the oldest response into the buffer and drops it; keeps a response that does not fit.
pub fn pull(buffer: &mut [u8], queue: Queue) -> QueueResult
    ensures { signing_exit result buffer.new ≡ exit_of queue (pull_of buffer.old (lists_of queue)) }
{
    let response = queue.responses.oldest();
    let len = queue::signature_len(response);
    match pull_checks(buffer.len(), queue.responses.waiting().len(), len) {
        Ok(()) => {
            put_response(buffer, response);
            QueueResult {
                answer: Answer::ok(0, 0),
                queue: Queue {
                    requests: queue.requests.after(0),
                    responses: queue.responses.after(1),
                },
            }
        }
        Err(code) => queue::refused(code, queue),
    }
}

// Returns the response with this granule, ticket and signature.
fn response_of(granule: u64, ticket: u64, signature: &[u8]) -> Response
    requires { length signature.now ≤ 104 }
    ensures { signed_in result ≡ record { granule = granule; ticket = ticket; signature = signature.now } }
{
    let mut bytes = [0u8; queue::SIGNATURE_BYTES];
    words::copy(&mut bytes, signature);
    Response {
        granule,
        ticket,
        len: signature.len(),
        signature: bytes,
    }
}

// Runs the signer's checks if `requests` requests and `responses` responses wait.
fn sign_checks(signature: &[u8], requests: usize, responses: usize) -> Result<(), Code>
    ensures { (q : Lists) → length q.requests ≡ requests → length q.responses ≡ responses → result ≡ gated (sign_code q signature.now) tt }
{
    if signature.len() == 0 {
        return Err(Code::Inval);
    }
    if queue::SIGNATURE_BYTES < signature.len() {
        return Err(Code::Inval);
    }
    if requests == 0 {
        return Err(Code::Again);
    }
    if queue::PLACES <= responses {
        return Err(Code::Again);
    }
    Ok(())
}

// The signer's own step (SQ2): the oldest request becomes the newest response, with the signature that the signer lends.
pub fn sign(queue: Queue, signature: &[u8]) -> QueueResult
    ensures { result ≡ sign_exit queue (sign_of (lists_of queue) signature.now) }
{
    let requests = queue.requests.waiting().len();
    let responses = queue.responses.waiting().len();
    match sign_checks(signature, requests, responses) {
        Ok(()) => {
            let oldest = queue.requests.oldest();
            let response = response_of(oldest.granule, oldest.ticket, signature);
            QueueResult {
                answer: Answer::ok(0, 0),
                queue: Queue {
                    requests: queue.requests.after(1),
                    responses: queue.responses.joined(response),
                },
            }
        }
        Err(code) => queue::refused(code, queue),
    }
}

// Pull on the queue's image: all checks run before the first word is copied, and only the responses' side changes.
pub fn pull_image(buffer: &mut [u8], image: &mut QueueImage) -> Answer
    ensures { ◌≡◌ {A = ImageStep} (record { answer = result; page = buffer.new; image = image.new }) (pull_on buffer.old image.old) }
{
    let waiting = queue_image::responses_waiting(image);
    let len = queue_image::front_len(image);
    match pull_checks(buffer.len(), waiting, len) {
        Ok(()) => {
            put_response(buffer, queue_image::front_response(image));
            queue_image::remove_response(image);
            Answer::ok(0, 0)
        }
        Err(code) => Answer::refused(code),
    }
}

// The signer's own step on the queue's image.
pub fn sign_image(image: &mut QueueImage, signature: &[u8]) -> Answer
    ensures { ◌≡◌ {A = SignImage} (record { answer = result; image = image.new }) (sign_on image.old signature.now) }
{
    let requests = queue_image::requests_waiting(image);
    let responses = queue_image::responses_waiting(image);
    match sign_checks(signature, requests, responses) {
        Ok(()) => {
            let oldest = queue_image::front_request(image);
            let response = response_of(oldest.granule, oldest.ticket, signature);
            queue_image::add_response(image, response);
            queue_image::remove_request(image);
            Answer::ok(0, 0)
        }
        Err(code) => Answer::refused(code),
    }
}
