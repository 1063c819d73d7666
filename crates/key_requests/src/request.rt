// What a request for a key says, and why words are none.
ghost use Rattle.std.specs.Prelude.{◌≡◌};
ghost use Rattle.key_requests.specs.Requests.{of_hex};

use stacks::Plan;
use text::HexFault;

// The key of that number, of a stack that stands on a root key of any length.
#[derive(Drop)]
pub struct KeyRequest {
    pub plan: Plan,
    pub quota: u32,
    pub key: Vec<u8>,
    pub number: u32,
}

// The words of a request for a key.
#[derive(Clone, Copy)]
pub struct KeyWords<'a> {
    pub stack: &'a [u8],
    pub axis: &'a [u8],
    pub quota: &'a [u8],
    pub key: &'a [u8],
    pub number: &'a [u8],
}

// Why words are no request for a key, or that there is no memory to tell.
#[derive(Clone, Copy, Debug, PartialEq, Eq)]
pub enum KeyFault {
    Stack,
    Axis,
    Number,
    Hexadecimal,
    Memory,
}

impl From<HexFault> for KeyFault {
    ghost from_gives = { λ h f. f ≡ of_hex h };

    fn from(fault: HexFault) -> KeyFault {
        match fault {
            HexFault::Digits => KeyFault::Hexadecimal,
            HexFault::Memory => KeyFault::Memory,
        }
    }
}
