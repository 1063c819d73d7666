// Why a request for a key is given none.
ghost use Rattle.std.specs.Prelude.{◌≡◌};
ghost use Rattle.stacks.specs.declared.refusal.KeyRefusal.TheVariants.{Stack as of_stack, Move as of_move};

use keys::{MoveFault, Refusal};

#[derive(Clone, Copy)]
pub enum KeyRefusal {
    // The stack cannot be made, and its note says why.
    Stack(Refusal),
    // The stack does not move to that number.
    Move(MoveFault),
}

impl From<Refusal> for KeyRefusal {
    ghost from_gives = { λ x r. r ≡ of_stack x };

    fn from(refusal: Refusal) -> KeyRefusal {
        KeyRefusal::Stack(refusal)
    }
}

impl From<MoveFault> for KeyRefusal {
    ghost from_gives = { λ m r. r ≡ of_move m };

    fn from(fault: MoveFault) -> KeyRefusal {
        KeyRefusal::Move(fault)
    }
}
