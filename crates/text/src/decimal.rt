// Numbers written in decimal digits. The library's `parse` takes a sign too, so it is not used; nor is `to_digit`, which
// takes twice the time.
ghost use Rattle.text.specs.Numerals.{IsNumeral};

// The number that the digits spell; none where there is no digit, another character, or a number past 32 bits.
#[tactic(auto, using(crate::proofs::Digits::too_large))]
pub fn from_decimal(text: &[u8]) -> Option<u32>
    ensures { IsNumeral text.now result }
{
    if text.is_empty() {
        return None;
    }
    let mut total = 0u64;
    for c in text {
        if !c.is_ascii_digit() {
            return None;
        }
        total = total * 10 + u64::from(*c - b'0');
        if total > u64::from(u32::MAX) {
            return None;
        }
    }
    Some(total as u32)
}
