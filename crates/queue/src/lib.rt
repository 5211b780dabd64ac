// The signing queue: requests that wait to be signed, and responses that wait to be pulled. Each side is an array of eight by value, oldest
// first; taking the oldest moves the others up. A count above eight, which no call leaves, counts as eight.
#![tactic(auto)]

ghost use Rattle.std.specs.Prelude.{◌≡◌, [], ◌≤◌, length, map, drop, get_or, slice_get};
ghost use Rattle.codes.specs.Codes.{answer_of};
ghost use Rattle.queue.specs.Queue.{waiting, signed_in, lists_of, appended, no_request, no_response, oldest_of};
ghost use Rattle.queue.specs.Queue.{side_of, response_holding, queue_holding};

use codes::{Answer, Code};

// Places of each side of the queue.
pub const PLACES: usize = 8;

// Length of a hash, and the most bytes of a signature.
pub const HASH_BYTES: usize = 48;

pub const SIGNATURE_BYTES: usize = 104;

// A request to sign a realm's token. `algorithm` and `hashid` are 4-byte numbers.
#[derive(Clone, Copy)]
pub struct Request {
    pub algorithm: u64,
    pub granule: u64,
    pub ticket: u64,
    pub hashid: u64,
    pub hash: [u8; HASH_BYTES],
}

// A response: the request's granule and ticket, and a signature of `len` bytes; a `len` above 104 counts as 104.
#[derive(Clone, Copy)]
pub struct Response {
    pub granule: u64,
    pub ticket: u64,
    pub len: usize,
    pub signature: [u8; SIGNATURE_BYTES],
}

// What a side of the queue holds. `free` is what a free place holds; `cleared` is an entry with zeros where it says nothing.
pub trait Entry: Copy {
    ghost free: { Self };

    ghost cleared: { Self → Self };

    fn free() -> Self
        ensures { result ≡ free };

    fn cleared(&self) -> Self
        ensures { result ≡ cleared self.now };
}

impl Entry for Request {
    ghost free = { no_request };

    ghost cleared = { λ r. r };

    fn free() -> Request {
        Request {
            algorithm: 0,
            granule: 0,
            ticket: 0,
            hashid: 0,
            hash: [0u8; HASH_BYTES],
        }
    }

    fn cleared(&self) -> Request {
        *self
    }
}

impl Entry for Response {
    ghost free = { no_response };

    ghost cleared = { λ r. response_holding (signed_in r) };

    fn free() -> Response {
        Response {
            granule: 0,
            ticket: 0,
            len: 0,
            signature: [0u8; SIGNATURE_BYTES],
        }
    }

    // Zeros after the signature.
    fn cleared(&self) -> Response {
        let len = signature_len(*self);
        let mut signature = [0u8; SIGNATURE_BYTES];
        words::copy(&mut signature, &self.signature[..len]);
        Response {
            granule: self.granule,
            ticket: self.ticket,
            len,
            signature,
        }
    }
}

// A side of the queue: the first `count` items wait, oldest first.
#[derive(Clone, Copy)]
pub struct Side<T> {
    pub items: [T; PLACES],
    pub count: usize,
}

impl<T: Entry> Side<T> {
    // Returns the entries that wait, oldest first.
    pub fn waiting(&self) -> &[T]
        ensures { (result.now ≡ waiting self.now) × (length result.now ≤ 8) }
    {
        let n = self.count.min(PLACES);
        &self.items[..n]
    }

    // Returns the oldest entry, if one waits.
    pub fn first(&self) -> Option<T>
        ensures { result ≡ slice_get (waiting self.now) 0 }
    {
        self.waiting().first().copied()
    }

    // Returns the oldest entry; what a free place holds if none waits.
    pub fn oldest(&self) -> T
        ensures { result ≡ get_or (waiting self.now) 0 T.free }
    {
        self.first().unwrap_or(T::free())
    }

    // Returns a side on which nothing waits.
    pub fn empty() -> Side<T>
        ensures { result ≡ side_of T.free [] }
    {
        Side {
            items: [T::free(); PLACES],
            count: 0,
        }
    }

    // Drops the oldest `gone` entries, moves the rest up and zeroes the freed places.
    pub fn after(&self, gone: usize) -> Side<T>
        ensures { result ≡ side_of T.free (map T.cleared (drop gone (waiting self.now))) }
    {
        let waiting = self.waiting();
        let mut side = Side::empty();
        for entry in &waiting[gone.min(waiting.len())..] {
            side.items[side.count] = entry.cleared();
            side.count += 1;
        }
        side
    }

    // Adds an entry at the end if fewer than eight wait; zeroes every place after those that wait.
    pub fn joined(&self, entry: T) -> Side<T>
        ensures { result ≡ side_of T.free (map T.cleared (appended (waiting self.now) entry)) }
    {
        let mut side = self.after(0);
        if side.count < PLACES {
            side.items[side.count] = entry.cleared();
            side.count += 1;
        }
        side
    }
}

// The signing queue: both sides.
#[derive(Clone, Copy)]
pub struct Queue {
    pub requests: Side<Request>,
    pub responses: Side<Response>,
}

// The result of a call on the queue: the answer and the next queue.
#[derive(Clone, Copy)]
pub struct QueueResult {
    pub answer: Answer,
    pub queue: Queue,
}

impl Queue {
    // Returns a queue with no request and no response.
    pub fn empty() -> Self
        ensures { result ≡ queue_holding (record { requests = []; responses = [] }) }
    {
        Queue {
            requests: Side::empty(),
            responses: Side::empty(),
        }
    }
}

// Refuses a call on the queue: zeros in x1 and x2, the queue unchanged.
pub fn refused(code: Code, queue: Queue) -> QueueResult
    ensures { result ≡ record { answer = answer_of code 0 0; queue = queue } }
{
    QueueResult {
        answer: Answer::refused(code),
        queue,
    }
}

// Returns the number of bytes of a response's signature; a length above 104 counts as 104 (SQ7).
pub fn signature_len(response: Response) -> usize
    ensures { (result ≡ length (signed_in response).signature) × (result ≤ 104) }
{
    response.len.min(SIGNATURE_BYTES)
}

// Returns the queue with zeros in every place where nothing waits.
pub fn clear_free(queue: Queue) -> Queue
    ensures { result ≡ queue_holding (lists_of queue) }
{
    Queue {
        requests: queue.requests.after(0),
        responses: queue.responses.after(0),
    }
}

// Returns the oldest request with all its fields, if one waits (SQ3).
pub fn oldest_request(queue: Queue) -> Option<Request>
    ensures { result ≡ oldest_of (lists_of queue).requests }
{
    queue.requests.first()
}
