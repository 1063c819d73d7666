// Bytes written as hexadecimal digits, two for each byte, the high half first.
ghost use Rattle.std.specs.Prelude.{◌≡◌, IfOk, string_bytes};
ghost use Rattle.text.specs.Hex.{Decoded, encoded};

use crate::fault::HexFault;
use std::alloc::{AllocError, Global};

// The bytes that a text of digits spells.
#[tactic(auto, using(crate::proofs::Encoding::decoded, crate::proofs::Encoding::refused, crate::proofs::Encoding::odd_spells_none, crate::proofs::Encoding::no_digit_spells_none))]
pub fn from_hex(heap: Global, text: &[u8]) -> Result<Vec<u8>, HexFault>
    ensures { Decoded text.now result }
{
    // The library takes room for all of the bytes before it looks at a digit.
    if text.len() % 2 != 0 {
        return Err(HexFault::Digits);
    }
    for c in text {
        if !c.is_ascii_hexdigit() {
            return Err(HexFault::Digits);
        }
    }
    Ok(hex::decode(heap, text)?)
}

// The digits of the bytes, letters as capitals.
#[tactic(auto, using(crate::proofs::Encoding::encoded_upper))]
pub fn to_hex(heap: Global, bytes: &[u8]) -> Result<String, AllocError>
    ensures { IfOk result (λ s. string_bytes s ≡ encoded bytes.now) }
{
    hex::encode_upper(heap, bytes)
}
