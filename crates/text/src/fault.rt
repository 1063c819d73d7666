// Why a text gives no bytes.
ghost use Rattle.std.specs.Prelude.{◌≡◌};
ghost use Rattle.text.specs.Faults.{of_error};
ghost use Rattle.text.specs.declared.fault.HexFault.TheVariants.{Memory as no_memory};

use hex::FromHexError;
use std::alloc::AllocFailed;

#[derive(Clone, Copy, Debug, PartialEq, Eq)]
pub enum HexFault {
    // A character is no digit, or one digit is left over.
    Digits,
    // There is no memory for the bytes.
    Memory,
}

impl From<FromHexError> for HexFault {
    ghost from_gives = { λ e f. f ≡ of_error e };

    fn from(error: FromHexError) -> HexFault {
        match error {
            FromHexError::OutOfMemory => HexFault::Memory,
            _ => HexFault::Digits,
        }
    }
}

impl<T: Drop> From<AllocFailed<T>> for HexFault {
    ghost from_gives = { λ _ f. f ≡ no_memory };

    fn from(_refused: AllocFailed<T>) -> HexFault {
        HexFault::Memory
    }
}
