// The rules of platform token and challenge: definitions in specs/, laws and theorems in proofs/. The code is in `token`.
#![tactic(auto)]

ghost use Rattle.std.specs.Prelude.{◌≡◌};

use codes::Answer;

// A token session: none, or a token of `whole` bytes of which `sent` are sent. No `Option`, which is no plainer: `Idle` is a state that
// rules and theorems name, as `Sending`.
#[derive(Clone, Copy)]
pub enum Session {
    Idle,
    Sending { whole: u64, sent: u64 },
}

// The result of a token call: the answer and the next session.
#[derive(Clone, Copy)]
pub struct TokenResult {
    pub answer: Answer,
    pub session: Session,
}

impl Session {
    // Returns no session.
    pub fn idle() -> Self
        ensures { result ≡ Session.Idle }
    {
        Session::Idle
    }
}
