// A source that stands on no other.
ghost use Rattle.std.specs.Prelude.{◌≡◌, ℕ, ◌<◌, Some, None};
ghost use Rattle.keys.specs.Bottom.{founded};
ghost use Rattle.keys.specs.FoundedFacts.{founded_facts};

use crate::keys::Keys;
use crate::{KeySource, MakingFault, MoveFault, Refusal};
use cipher::{BlockCipher, KeyBuffer};
use std::marker::PhantomData;

// A source that gives out the keys that it holds; it holds none where its making was refused. It counts the moves to
// another key than the one before.
#[derive(Drop)]
pub struct Bottom<C: BlockCipher, K: Keys<C>> {
    keys: K,
    cipher: PhantomData<C>,
    position: Option<u32>,
    given: u32,
    ghost within: { (i : ℕ) → position ≡ Some i → i < K.Keys.count keys },
    ghost fresh: { position ≡ None → given ≡ 0 },
}

impl<C: BlockCipher, K: Keys<C>> Bottom<C, K> {
    pub(crate) fn new(keys: K) -> Bottom<C, K>
        ensures keys { result.keys ≡ keys }
        ensures position { result.position ≡ None }
    {
        Bottom {
            keys,
            cipher: PhantomData,
            position: None,
            given: 0,
        }
    }
}

impl<C: BlockCipher, K: Keys<C>> KeySource<C> for Bottom<C, K> {
    ghost stack = { λ s. founded (K.Keys.count s.keys) (K.Keys.key s.keys) };

    ghost stands = { λ s. s.position };

    ghost ledgers = { λ s _. s.given };

    ghost facts = { λ s. founded_facts (K.Keys.count s.keys) (K.Keys.key s.keys) s.position s.given (K.Keys.few s.keys) s.within s.fresh };

    fn count(&self) -> u32 {
        self.keys.count()
    }

    fn position(&self) -> Option<u32> {
        self.position
    }

    fn levels(&self) -> u32 {
        1
    }

    fn quota(&self, level: u32) -> Option<u32> {
        (level == 0).then_some(1)
    }

    fn ledger(&self, level: u32) -> Option<u32> {
        (level == 0).then_some(self.given)
    }

    fn renews_own_keys(&self) -> bool {
        false
    }

    fn note(&self) -> Result<u32, Refusal> {
        let refusal = Refusal {
            level: 0,
            fault: MakingFault::KeyLength,
        };
        self.keys.key(0).map(|_| 0).ok_or(refusal)
    }

    fn move_to(&mut self, number: u32, key: &mut KeyBuffer) -> Result<(), MoveFault> {
        let held = self.keys.key(number).ok_or(MoveFault::PastCount)?;
        key[..held.len()].copy_from_slice(held);
        if self.position != Some(number) {
            self.position = Some(number);
            self.given = self.given.saturating_add(1);
        }
        Ok(())
    }
}
