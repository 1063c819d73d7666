// A walk through the keys of a source, in order.
ghost use Rattle.std.specs.Prelude.{◌≡◌, ℕ, suc, ◌<◌, ◌≤◌, ◌++◌, drop, None, MatchResult};
ghost use Rattle.keys.specs.Stack.{key as key_of, count as count_of, quotas};
ghost use Rattle.keys.specs.Moving.{Kept};
ghost use Rattle.keys.specs.Walks.{Walked};

use crate::{KeySource, MoveFault};
use cipher::{BlockCipher, KeyBuffer};

// Moves a source through its keys from 0 to the last, and writes that.
pub fn walk<C: BlockCipher, S: KeySource<C>>(
    source: &mut S,
    last: u32,
    key: &mut KeyBuffer,
) -> Result<(), MoveFault>
    ensures { S.KeySource.stands source.old ≡ None → MatchResult result
        (λ _. (last < count_of (S.KeySource.stack source.old)) × (key.new ≡ key_of C.BlockCipher.model (S.KeySource.stack source.old) last ++ drop C.BlockCipher.model.key key.old) × Walked (quotas (S.KeySource.stack source.old)) (suc last) (S.KeySource.stands source.new) (S.KeySource.ledgers source.new))
        (λ f. Kept f (S.KeySource.stack source.old) last (source.new ≡ source.old) (key.new ≡ key.old)) }
{
    if last >= source.count() {
        return Err(MoveFault::PastCount);
    }
    for number in 0..last {
        source.move_to(number, key)?;
    }
    // The last by itself: in a loop over `0..=last` the compiler leaves what it takes out of this one.
    source.move_to(last, key)?;
    Ok(())
}
