// The key of a cipher.
ghost use Rattle.std.specs.Prelude.{◌≡◌, ◌≢◌, ◌-◌, ◌++◌, length, take, drop, replicate, MatchOption};

use crate::{BlockCipher, KeyBuffer};
use std::marker::{Model, PhantomData};

// The key of a cipher, at the front of room for any; zeros stand behind a shorter one. The room is open to those who
// write a cipher, as that of a block.
#[derive(Drop)]
pub struct Key<C: BlockCipher> {
    pub bytes: KeyBuffer,
    cipher: PhantomData<C>,
}

// Clauses see the bytes of the key.
impl<C: BlockCipher> Model for Key<C> {
    ghost use Rattle.std.specs.Prelude.{◌≡◌, ℕ, ◌-◌, List, take, drop, replicate};

    ghost Value = { List ℕ };

    ghost view = { λ k. take C.BlockCipher.model.key k.bytes };

    ghost invariant = { λ k. drop C.BlockCipher.model.key k.bytes ≡ replicate (32 - C.BlockCipher.model.key) 0 };
}

impl<C: BlockCipher> Key<C> {
    // The key in the first bytes of a buffer.
    pub fn new(buffer: &KeyBuffer) -> Key<C>
        ensures { result ≡ take C.BlockCipher.model.key buffer.now }
    {
        let k = C::key_len();
        let mut bytes = *buffer;
        bytes[k..].fill(0);
        Key {
            bytes,
            cipher: PhantomData,
        }
    }

    // The key that these bytes are, where they are as many as a key has.
    pub fn from_slice(bytes: &[u8]) -> Option<Key<C>>
        ensures { MatchOption result (length bytes.now ≢ C.BlockCipher.model.key) (λ k. (length bytes.now ≡ C.BlockCipher.model.key) × (k ≡ bytes.now)) }
    {
        if bytes.len() != C::key_len() {
            return None;
        }
        let mut buffer = [0; 32];
        buffer[..bytes.len()].copy_from_slice(bytes);
        Some(Key::new(&buffer))
    }

    // The same key. It is not `Copy`: the borrow checker takes no copy of a type whose parameter has a bound. A `clone` may
    // fail.
    pub fn copy(&self) -> Key<C>
        ensures { result ≡ self.now }
    {
        Key {
            bytes: self.bytes,
            cipher: PhantomData,
        }
    }

    // The bytes of the key.
    pub fn as_slice(&self) -> &[u8]
        ensures value { result.now ≡ self.now }
        ensures len { length result.now ≡ C.BlockCipher.model.key }
    {
        &self.bytes[..C::key_len()]
    }

    // Writes the key to the first bytes of a buffer; the others stay.
    pub fn write(&self, buffer: &mut KeyBuffer)
        ensures { buffer.new ≡ self.now ++ drop C.BlockCipher.model.key buffer.old }
    {
        let k = C::key_len();
        buffer[0..k].copy_from_slice(&self.bytes[0..k]);
    }
}
