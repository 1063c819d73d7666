// A source of numbered keys.
ghost use Rattle.std.specs.Prelude.{◌≡◌, ℕ, ◌<◌, ◌≤◌, Some, None, Option, MatchResult};
ghost use Rattle.keys.specs.Stack.{Stack, count as count_of, quotas, levels as levels_of, note as note_of, renews_keys, entry};
ghost use Rattle.keys.specs.Sources.{Facts, told};
ghost use Rattle.keys.specs.Moving.{Moved, Kept};

use crate::{MoveFault, Refusal};
use cipher::{BlockCipher, KeyBuffer};

// A source of keys for a cipher, numbered from 0. It stands at a key's number, or nowhere before its first
// move. Each of its levels has a quota, and a ledger of the keys that it has made.
pub trait KeySource<C: BlockCipher>: Sized + Drop {
    // What it is made of. This, where it stands and its ledgers are three members, since most clauses cite one alone.
    ghost stack: { Self → Stack };

    // The number that it stands at.
    ghost stands: { Self → Option ℕ };

    // The ledger of each level.
    ghost ledgers: { Self → ℕ → ℕ };

    // How many keys it has.
    fn count(&self) -> u32
        ensures value { result ≡ count_of (stack self.now) }
        ensures few { result ≤ 16777216 }
        ensures facts { Facts (stack self.now) (stands self.now) (ledgers self.now) };

    // The number that it stands at, or none.
    fn position(&self) -> Option<u32>
        ensures { result ≡ stands self.now };

    // How many levels it has.
    fn levels(&self) -> u32
        ensures value { result ≡ levels_of (stack self.now) }
        ensures few { result ≤ 256 };

    // The quota of a level.
    fn quota(&self, level: u32) -> Option<u32>
        ensures { result ≡ entry (quotas (stack self.now)) level };

    // The ledger of a level.
    fn ledger(&self, level: u32) -> Option<u32>
        ensures { result ≡ told (levels_of (stack self.now)) (ledgers self.now) level };

    // Whether the renewal constants are enciphered under the keys that it gives out.
    fn renews_own_keys(&self) -> bool
        ensures { result ≡ renews_keys (stack self.now) };

    // Its own level, or why its making was refused.
    fn note(&self) -> Result<u32, Refusal>
        ensures { result ≡ note_of (stack self.now) };

    // Moves to a key's number, and writes the key. The buffer is as long as any cipher's key, so that no call has a
    // condition on its length.
    fn move_to(&mut self, number: u32, key: &mut KeyBuffer) -> Result<(), MoveFault>
        ensures stack { stack self.new ≡ stack self.old }
        ensures cases { MatchResult result
            (λ _. Moved C.BlockCipher.model (stack self.old) (stands self.old) number (ledgers self.old) (ledgers self.new) (stands self.new) key.old key.new)
            (λ f. Kept f (stack self.old) number (self.new ≡ self.old) (key.new ≡ key.old)) };

    // What holds in every state; a call of `count` says it too.
    ghost facts: { (s : Self) → Facts (stack s) (stands s) (ledgers s) };
}
