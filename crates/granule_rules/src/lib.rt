// The rules of delegation: definitions in specs/, laws and theorems in proofs/. The code is in `granules`, but for what a direction means.
#![tactic(auto)]

ghost use Rattle.std.specs.Prelude.{◌≡◌};
ghost use Rattle.granule_rules.specs.Granules.{from_byte, to_byte, is_shared_page};

use boot::Params;

// The direction of a move: Non-secure to Realm, or back.
#[derive(Clone, Copy)]
pub enum Direction {
    Delegate,
    Undelegate,
}

impl Direction {
    // Returns the byte that a granule must have.
    #[tactic(auto, unfolding(crate::specs::Granules::from_byte))]
    pub fn from_byte(self) -> u8
        ensures { result ≡ from_byte self }
    {
        match self {
            Direction::Delegate => 0,
            Direction::Undelegate => 1,
        }
    }

    // Returns the byte that a granule gets.
    // Not as the other direction's `from_byte`, which is no plainer: the method that gives the other direction has the same two arms.
    #[tactic(auto, unfolding(crate::specs::Granules::to_byte))]
    pub fn to_byte(self) -> u8
        ensures { result ≡ to_byte self }
    {
        match self {
            Direction::Delegate => 1,
            Direction::Undelegate => 0,
        }
    }

    // Whether a call would undelegate the shared page, which must stay Realm (SH1).
    #[tactic(auto, unfolding(crate::specs::Granules::is_shared_page))]
    pub fn is_shared_page(self, params: Params, address: u64) -> bool
        ensures { result ≡ is_shared_page params self address }
    {
        match self {
            Direction::Delegate => false,
            Direction::Undelegate => address == params.base,
        }
    }
}
