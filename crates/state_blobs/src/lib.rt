// The collector: joins the pieces of a state blob, each after the bytes held, in a buffer that the caller lends.
#![tactic(auto)]

ghost use Rattle.std.specs.Prelude.{◌≡◌, ◌+◌, ◌<◌, ◌≤◌, length, OnOk};
ghost use Rattle.state_blobs.specs.Collect.{new_collector, is_complete, other_total, decide, Outcome, piece_appended, offer_bytes, collect};

use state_messages::StateRefusal;

// The part of a blob held so far: the totlength of the first accepted response, once there is one, and the number of bytes held.
#[derive(Clone, Copy, PartialEq, Eq)]
pub struct Collector {
    pub total: Option<u32>,
    pub held: u32,
}

impl Collector {
    // A collector that holds nothing.
    #[tactic(auto, unfolding(crate::specs::Collect::new_collector))]
    pub fn new() -> Collector
        ensures { result ≡ new_collector }
    {
        Collector {
            total: None,
            held: 0,
        }
    }

    // Whether the whole blob is held (SB8).
    #[tactic(auto, unfolding(crate::specs::Collect::is_complete))]
    pub fn is_complete(self) -> bool
        ensures { result ≡ is_complete self }
    {
        self.total.is_some_and(|total| self.held == total)
    }

    // How many bytes are held: the offset to ask for next.
    pub fn bytes_held(self) -> usize
        ensures { (result ≡ self.held) × (result < 0x1_0000_0000) }
    {
        self.held as usize
    }

    // Whether a response was accepted before, with a totlength other than `total`.
    #[tactic(auto, unfolding(crate::specs::Collect::other_total))]
    fn other_total(self, total: u32) -> bool
        ensures { result ≡ other_total self total }
    {
        self.total.is_some_and(|first| first != total)
    }

    // Whether `len` new bytes of a blob of `total` bytes may follow those held, in a buffer of `room` bytes. The sum has 64 bits, so it
    // cannot overflow.
    #[tactic(auto, unfolding(crate::specs::Collect::decide, words::specs::Tests::both))]
    fn decide(self, total: u32, len: usize, room: usize) -> Result<(), StateRefusal>
        requires { len < 0x1_0000_0000 }
        ensures verdict { result ≡ decide self total len room }
        ensures ok { OnOk result ((self.held + len ≤ total) × (self.held + len ≤ room)) }
    {
        let held = self.bytes_held();
        let end = held + len;
        if self.other_total(total) {
            return Err(StateRefusal::TotalDiffers);
        }
        if (total as usize) < end {
            return Err(StateRefusal::PastTotal);
        }
        if room < end {
            return Err(StateRefusal::PastBuffer);
        }
        if len == 0 && held < total as usize {
            return Err(StateRefusal::NoData);
        }
        Ok(())
    }

    // Copies new bytes, which must fit, after those held.
    fn append(&mut self, total: u32, bytes: &[u8], buffer: &mut [u8])
        requires { (self.old.held + length bytes.now ≤ total) × (self.old.held + length bytes.now ≤ length buffer.old) }
        ensures { ◌≡◌ {A = Outcome} (record { verdict = Ok tt; collector = self.new; buffer = buffer.new })
            (piece_appended self.old total bytes.now buffer.old) }
    {
        let held = self.bytes_held();
        let end = held + bytes.len();
        words::copy_by_words(&mut buffer[held..], bytes);
        *self = Collector {
            total: Some(total),
            held: end as u32,
        };
    }

    // Copies new bytes after those held if `decide` accepts them.
    #[tactic(auto, unfolding(crate::specs::Collect::offer_bytes, crate::specs::Collect::settle, crate::specs::Collect::unchanged))]
    fn offer(&mut self, total: u32, bytes: &[u8], buffer: &mut [u8]) -> Result<(), StateRefusal>
        requires { length bytes.now < 0x1_0000_0000 }
        ensures { ◌≡◌ {A = Outcome} (record { verdict = result; collector = self.new; buffer = buffer.new })
            (offer_bytes self.old total bytes.now buffer.old) }
    {
        self.decide(total, bytes.len(), buffer.len())?;
        self.append(total, bytes, buffer);
        Ok(())
    }

    // Adds the data of a response to the bytes held in the buffer. On a refusal, collector and buffer stay unchanged (SB10).
    pub fn collect(
        &mut self,
        message: &[u8],
        largest: u32,
        buffer: &mut [u8],
    ) -> Result<(), StateRefusal>
        ensures { ◌≡◌ {A = Outcome} (record { verdict = result; collector = self.new; buffer = buffer.new })
            (collect largest message.now self.old buffer.old) }
    {
        let piece = state_messages::read_response(message, largest)?;
        self.offer(piece.total, state_messages::data_of(message), buffer)
    }
}
