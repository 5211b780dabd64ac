// The signing queue as a lent image of 210 words, for C. A call changes only the side that it needs, in place: it adds a row, or drops the
// oldest. `queue_of` reads an image as a queue by value. Any image is a valid input, including one that no queue has.
#![tactic(auto)]

ghost use Rattle.std.specs.Prelude.{◌≡◌, min, ◌+◌, ◌-◌, ◌*◌, ◌<◌, ◌≤◌, length, map, drop, get_or, replicate, ℕ, List};
ghost use Rattle.words.specs.Word.{part, words_of, splice};
ghost use Rattle.queue.specs.Queue.{signed_in};
ghost use Rattle.queue_image.specs.Image.{rows, request_in, held_in, response_in, lists_in, queue_in, request_words, response_words, oldest_words};
ghost use Rattle.queue_image.specs.Sides.{request_side, response_side, row_dropped};
ghost use Rattle.queue_image.specs.Steps.{row_appended};

use queue::{Entry, HASH_BYTES, PLACES, Queue, Request, Response, SIGNATURE_BYTES, Side};

// The image: the number of requests, the number of responses, eight requests, eight responses.
pub const QUEUE_WORDS: usize = 210;

const REQUESTS: usize = 0;

const RESPONSES: usize = 1;

const FIRST_REQUEST: usize = 2;

const FIRST_RESPONSE: usize = 82;

pub type QueueImage = [u64; QUEUE_WORDS];

// A request: algorithm, granule, ticket, hash id, then the hash.
pub const REQUEST_WORDS: usize = 10;

const HASH_AT: usize = 4;

const HASH_WORDS: usize = 6;

pub type RequestImage = [u64; REQUEST_WORDS];

// A response: granule, ticket, length of the signature, then the signature.
pub const RESPONSE_WORDS: usize = 16;

const SIGNATURE_AT: usize = 3;

const SIGNATURE_WORDS: usize = 13;

// `PLACES` and `SIGNATURE_BYTES`, to compare with a word of the image.
const PLACES_WORD: u64 = 8;

const SIGNATURE_WORD: u64 = 104;

// Writes `bytes` as `n` words at `at`; bytes past their end are 0: so an index loop, since a signature's bytes may end before the words do.
fn put_bytes(image: &mut [u64], at: usize, bytes: &[u8], n: usize)
    requires { (at + n ≤ length image.old) × (n ≤ 13) }
    ensures { image.new ≡ splice at (words_of n bytes.now) image.old }
{
    for i in 0..n {
        image[at + i] = words::word_at(bytes, 8 * i);
    }
}

// An entry as a row of the image. The image has its number at NUMBER, and eight rows of WORDS words from FIRST.
trait Row: Entry {
    ghost NUMBER: { ℕ };

    ghost FIRST: { ℕ };

    ghost WORDS: { ℕ };

    ghost of_row: { List ℕ → Self };

    ghost as_row: { Self → List ℕ };

    const NUMBER: usize;

    const FIRST: usize;

    const WORDS: usize;

    // Reads the row at `at`.
    fn read(image: &[u64], at: usize) -> Self
        requires { at + WORDS ≤ length image.now }
        ensures { result ≡ of_row (part at WORDS image.now) };

    // Writes the row at `at`.
    fn put(self, image: &mut [u64], at: usize)
        requires { at + WORDS ≤ length image.old }
        ensures { image.new ≡ splice at (as_row self) image.old };
}

impl Row for Request {
    ghost NUMBER = { 0 };

    ghost FIRST = { 2 };

    ghost WORDS = { 10 };

    ghost of_row = { request_in };

    ghost as_row = { request_words };

    const NUMBER: usize = REQUESTS;

    const FIRST: usize = FIRST_REQUEST;

    const WORDS: usize = REQUEST_WORDS;

    fn read(image: &[u64], at: usize) -> Request {
        let from = at + HASH_AT;
        let to = at + REQUEST_WORDS;
        let mut hash = [0u8; HASH_BYTES];
        words::put_words(&mut hash, 0, &image[from..to]);
        Request {
            algorithm: image[at],
            granule: image[at + 1],
            ticket: image[at + 2],
            hashid: image[at + 3],
            hash,
        }
    }

    fn put(self, image: &mut [u64], at: usize) {
        let hash = self.hash;
        image[at] = self.algorithm;
        image[at + 1] = self.granule;
        image[at + 2] = self.ticket;
        image[at + 3] = self.hashid;
        put_bytes(image, at + HASH_AT, &hash, HASH_WORDS);
    }
}

impl Row for Response {
    ghost NUMBER = { 1 };

    ghost FIRST = { 82 };

    ghost WORDS = { 16 };

    ghost of_row = { held_in };

    ghost as_row = { λ r. response_words (signed_in r) };

    const NUMBER: usize = RESPONSES;

    const FIRST: usize = FIRST_RESPONSE;

    const WORDS: usize = RESPONSE_WORDS;

    fn read(image: &[u64], at: usize) -> Response {
        let from = at + SIGNATURE_AT;
        let to = at + RESPONSE_WORDS;
        let mut signature = [0u8; SIGNATURE_BYTES];
        words::put_words(&mut signature, 0, &image[from..to]);
        Response {
            granule: image[at],
            ticket: image[at + 1],
            len: image[at + 2] as usize,
            signature,
        }
    }

    fn put(self, image: &mut [u64], at: usize) {
        let n = queue::signature_len(self);
        let signature = self.signature;
        image[at] = self.granule;
        image[at + 1] = self.ticket;
        image[at + 2] = n as u64;
        put_bytes(image, at + SIGNATURE_AT, &signature[..n], SIGNATURE_WORDS);
    }
}

// Reads all eight places of a side; `count` is the image's own number.
fn side_in<T: Row>(image: &[u64]) -> Side<T>
    requires { (T.NUMBER < T.FIRST) × (T.FIRST + T.WORDS * 8 ≤ length image.now) }
    ensures { result ≡ record { items = map T.of_row (rows T.WORDS 8 (drop T.FIRST image.now)); count = get_or image.now T.NUMBER 0 } }
{
    let mut items = [T::read(image, T::FIRST); PLACES];
    for (i, item) in items.iter_mut().enumerate() {
        *item = T::read(image, T::FIRST + T::WORDS * i);
    }
    Side {
        items,
        count: image[T::NUMBER] as usize,
    }
}

// Reads the image as a queue by value.
pub fn queue_of(image: &QueueImage) -> Queue
    ensures { result ≡ queue_in image.now }
{
    let requests = side_in(image);
    let responses = side_in(image);
    Queue {
        requests,
        responses,
    }
}

// Returns min(8, image[number]): the number of rows that wait on a side.
fn rows_waiting(image: &[u64], number: usize) -> usize
    requires { number < length image.now }
    ensures { (result ≡ min 8 (get_or image.now number 0)) × (result ≤ 8) }
{
    image[number].min(PLACES_WORD) as usize
}

// Returns the number of requests that wait.
pub fn requests_waiting(image: &QueueImage) -> usize
    ensures { (result ≡ length (lists_in image.now).requests) × (result ≤ 8) }
{
    rows_waiting(image, REQUESTS)
}

// Returns the number of responses that wait.
pub fn responses_waiting(image: &QueueImage) -> usize
    ensures { (result ≡ length (lists_in image.now).responses) × (result ≤ 8) }
{
    rows_waiting(image, RESPONSES)
}

// Adds a row at the end of its side; leaves the image unchanged if eight wait.
fn add_row<T: Row>(image: &mut [u64], entry: T)
    requires { (T.NUMBER < T.FIRST) × (T.FIRST + T.WORDS * 8 ≤ length image.old) }
    ensures { image.new ≡ row_appended (record { number = T.NUMBER; start = T.FIRST; width = T.WORDS }) (T.as_row entry) image.old }
{
    let n = rows_waiting(image, T::NUMBER);
    if PLACES <= n {
        return;
    }
    entry.put(image, T::FIRST + T::WORDS * n);
    image[T::NUMBER] = (n + 1) as u64;
}

// Adds a request at the end; leaves the image unchanged if eight wait.
pub fn add_request(image: &mut QueueImage, request: Request)
    ensures { image.new ≡ row_appended request_side (request_words request) image.old }
{
    add_row(image, request);
}

// Adds a response at the end; leaves the image unchanged if eight wait.
pub fn add_response(image: &mut QueueImage, response: Response)
    ensures { image.new ≡ row_appended response_side (response_words (signed_in response)) image.old }
{
    add_row(image, response);
}

// Moves `n` words from `start + width` to `start`.
fn move_up(image: &mut [u64], start: usize, width: usize, n: usize)
    requires { start + width + n ≤ length image.old }
    ensures { image.new ≡ splice start (part (start + width) n image.old) image.old }
{
    let from = start + width;
    image.copy_within(from..from + n, start);
}

// Writes `n` zeros at `at`.
fn clear(image: &mut [u64], at: usize, n: usize)
    requires { at + n ≤ length image.old }
    ensures { image.new ≡ splice at (replicate n 0) image.old }
{
    image[at..at + n].fill(0);
}

// Returns the number of rows that wait after the oldest.
fn rows_behind(image: &[u64], number: usize) -> usize
    requires { number < length image.now }
    ensures { (result ≡ min 8 (get_or image.now number 0) - 1) × (result ≤ 7) }
{
    rows_waiting(image, number).saturating_sub(1)
}

// Drops the oldest row of a side: moves the rows after it up and zeroes the freed place.
fn drop_row(image: &mut [u64], number: usize, start: usize, width: usize)
    requires { (number < start) × (width ≤ 16) × (start + width * 8 ≤ length image.old) }
    ensures { image.new ≡ row_dropped (record { number = number; start = start; width = width }) image.old }
{
    let behind = rows_behind(image, number);
    let n = width * behind;
    move_up(image, start, width, n);
    clear(image, start + n, width);
    image[number] = behind as u64;
}

// Drops the oldest request.
pub fn remove_request(image: &mut QueueImage)
    ensures { image.new ≡ row_dropped request_side image.old }
{
    drop_row(image, REQUESTS, FIRST_REQUEST, REQUEST_WORDS);
}

// Drops the oldest response.
pub fn remove_response(image: &mut QueueImage)
    ensures { image.new ≡ row_dropped response_side image.old }
{
    drop_row(image, RESPONSES, FIRST_RESPONSE, RESPONSE_WORDS);
}

// Returns the request in the first place: the oldest, if one waits.
pub fn front_request(image: &QueueImage) -> Request
    ensures { result ≡ request_in (part 2 10 image.now) }
{
    Request::read(image, FIRST_REQUEST)
}

// Returns the response in the first place: the oldest, if one waits.
pub fn front_response(image: &QueueImage) -> Response
    ensures { result ≡ held_in (part 82 16 image.now) }
{
    Response::read(image, FIRST_RESPONSE)
}

// Returns the number of bytes of the signature in the response at `at`; a length above 104 counts as 104.
fn len_in(image: &[u64], at: usize) -> usize
    requires { at + 16 ≤ length image.now }
    ensures { (result ≡ length (response_in (part at 16 image.now)).signature) × (result ≤ 104) }
{
    image[at + 2].min(SIGNATURE_WORD) as usize
}

// Returns the number of bytes of the signature in the first response.
pub fn front_len(image: &QueueImage) -> usize
    ensures { (result ≡ length (response_in (part 82 16 image.now)).signature) × (result ≤ 104) }
{
    len_in(image, FIRST_RESPONSE)
}

// Returns the ten words of the oldest request; zeros if no request waits.
pub fn oldest_words(image: &QueueImage) -> RequestImage
    ensures { result ≡ oldest_words (lists_in image.now).requests }
{
    let mut row = [0u64; REQUEST_WORDS];
    if image[REQUESTS] == 0 {
        return row;
    }
    Request::read(image, FIRST_REQUEST).put(&mut row, 0);
    row
}
