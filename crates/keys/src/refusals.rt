// Why a source was not made, or not moved.
ghost use Rattle.std.specs.Prelude.{◌≡◌};
ghost use Rattle.keys.specs.Refusals.{making_number};
ghost use Rattle.keys.specs.Moving.{move_refusal};

use std::num::NonZeroU32;

// Why a source was not made.
#[derive(Clone, Copy, PartialEq, Eq)]
pub enum MakingFault {
    // A root's buffer does not hold one key, or a ring's 1 to 256 keys.
    KeyLength,
    // A quota, a branch's number or a master's period is out of range.
    OutOfRange,
    // The source below has moved.
    NotFresh,
    // A chain or a master on a source whose keys are renewed already.
    KeysRenewed,
    // More than 256 levels, or more than 2^24 keys.
    TooLarge,
    // Why a source of another make was not made, by a number of its own: never 0, which tells of one that was made.
    Other(NonZeroU32),
}

// Why a source did not move.
#[derive(Clone, Copy, PartialEq, Eq)]
pub enum MoveFault {
    // There is no key of that number.
    PastCount = 13,
}

// The level that was to be made, or the last that there can be, and why it was not made.
#[derive(Clone, Copy, PartialEq, Eq)]
pub struct Refusal {
    pub level: u32,
    pub fault: MakingFault,
}

impl MakingFault {
    pub fn number(self) -> u32
        ensures { result ≡ making_number self }
    {
        match self {
            MakingFault::KeyLength => 1,
            MakingFault::OutOfRange => 2,
            MakingFault::NotFresh => 3,
            MakingFault::KeysRenewed => 4,
            MakingFault::TooLarge => 5,
            MakingFault::Other(number) => number.get(),
        }
    }
}

impl MoveFault {
    pub fn number(self) -> u32
        ensures { result ≡ (move_refusal self).number }
    {
        self as u32
    }
}
