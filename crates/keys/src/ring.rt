// A source of keys that stand in a lent buffer.
ghost use Rattle.std.specs.Prelude.{◌≡◌, ◌*◌, ◌/◌, ◌%◌, ◌≤◌, length, take, drop, None};
ghost use Rattle.keys.specs.Bottom.{ringed};
ghost use Rattle.keys.specs.FoundedFacts.{ring_few};

use crate::KeySource;
use crate::bottom::Bottom;
use crate::keys::Keys;
use cipher::BlockCipher;
use std::marker::PhantomData;

const MOST_KEYS: usize = 256;

// At most 256 keys, which stand in a lent buffer one after the other. The buffer is only read.
#[derive(Drop)]
pub struct LentKeys<'a, C: BlockCipher> {
    bytes: &'a [u8],
    cipher: PhantomData<C>,
    ghost whole: { length bytes.now % C.BlockCipher.model.key ≡ 0 },
    ghost few: { length bytes.now ≤ 256 * C.BlockCipher.model.key },
}

impl<'a, C: BlockCipher> Keys<C> for LentKeys<'a, C> {
    ghost count = { λ s. length s.bytes.now / C.BlockCipher.model.key };

    ghost key = { λ s i. take C.BlockCipher.model.key (drop (i * C.BlockCipher.model.key) s.bytes.now) };

    ghost few = { λ s. ring_few (length s.bytes.now) C.BlockCipher.model C.BlockCipher.laws s.few };

    fn count(&self) -> u32 {
        (self.bytes.len() / C::key_len()) as u32
    }

    fn key(&self, number: u32) -> Option<&[u8]> {
        let n = C::key_len();
        self.bytes.chunks_exact(n).nth(number as usize)
    }
}

// A source of keys that stand in a lent buffer.
pub type Ring<'a, C> = Bottom<C, LentKeys<'a, C>>;

impl<'a, C: BlockCipher> Ring<'a, C> {
    // Reads the keys where they stand; it has none where the buffer does not hold 1 to 256 whole keys.
    pub fn from_keys(buffer: &'a [u8]) -> Ring<'a, C>
        ensures stack { ⟦<Ring<'a, C> as KeySource<C>>⟧.stack result ≡ ringed C.BlockCipher.model.key buffer.now }
        ensures stands { ⟦<Ring<'a, C> as KeySource<C>>⟧.stands result ≡ None }
    {
        let n = C::key_len();
        let fits = buffer.len() <= MOST_KEYS * n && buffer.len() % n == 0;
        Bottom::new(LentKeys {
            bytes: if fits { buffer } else { &[] },
            cipher: PhantomData,
        })
    }
}
