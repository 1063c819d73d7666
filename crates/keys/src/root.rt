// A source of one key.
ghost use Rattle.std.specs.Prelude.{◌≡◌, length, replicate, cond, is_some, unwrap_or, [], None};
ghost use Rattle.keys.specs.Bottom.{rooted};
ghost use Rattle.keys.specs.FoundedFacts.{one_few};

use crate::KeySource;
use crate::bottom::Bottom;
use crate::keys::Keys;
use cipher::{BlockCipher, Key};

// Holds a lent key buffer, and fills it with zeros when it is let go.
struct Wiped<'a>(&'a mut [u8]);

impl Drop for Wiped<'_> {
    fn drop(self)
        ensures { self.exit.0.now ≡ replicate (length self.entry.0.now) 0 }
    {
        self.0.fill(0);
        let Wiped(_) = self;
    }
}

// One key or none.
#[derive(Drop)]
pub struct OneKey<C: BlockCipher>(Option<Key<C>>);

impl<C: BlockCipher> Keys<C> for OneKey<C> {
    ghost count = { λ s. cond (is_some s.0) 1 0 };

    ghost key = { λ s _. unwrap_or s.0 [] };

    ghost few = { λ s. one_few (is_some s.0) };

    fn count(&self) -> u32 {
        self.0.is_some() as u32
    }

    fn key(&self, number: u32) -> Option<&[u8]> {
        if number > 0 {
            return None;
        }
        Some(self.0.as_ref()?.as_slice())
    }
}

// A source of one key.
pub type Root<C> = Bottom<C, OneKey<C>>;

impl<C: BlockCipher> Root<C> {
    // Takes the key out of the buffer, and leaves zeros there, also where the buffer does not hold one key.
    pub fn from_key(buffer: &mut [u8]) -> Root<C>
        ensures zeros { buffer.new ≡ replicate (length buffer.old) 0 }
        ensures stack { ⟦<Root<C> as KeySource<C>>⟧.stack result ≡ rooted C.BlockCipher.model.key buffer.old }
        ensures stands { ⟦<Root<C> as KeySource<C>>⟧.stands result ≡ None }
    {
        let guard = Wiped(buffer);
        Bottom::new(OneKey(Key::from_slice(guard.0)))
    }
}
