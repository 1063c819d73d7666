// The block of a cipher.
ghost use Rattle.std.specs.Prelude.{◌≡◌, ◌-◌, ◌++◌, length, take, drop, replicate};

use crate::{BlockBuffer, BlockCipher};
use std::marker::{Model, PhantomData};

// A block of a cipher, at the front of room for any; zeros stand behind a shorter one, and stay there. The room is open to
// those who write a cipher, since what makes one cannot call what is made of one. It is a type beside that of a key: one
// for both would take the room and the length as parameters.
#[derive(Drop)]
pub struct Block<C: BlockCipher> {
    pub bytes: BlockBuffer,
    cipher: PhantomData<C>,
}

// Clauses see the bytes of the block.
impl<C: BlockCipher> Model for Block<C> {
    ghost use Rattle.std.specs.Prelude.{◌≡◌, ℕ, ◌-◌, List, take, drop, replicate};

    ghost Value = { List ℕ };

    ghost view = { λ b. take C.BlockCipher.model.block b.bytes };

    ghost invariant = { λ b. drop C.BlockCipher.model.block b.bytes ≡ replicate (16 - C.BlockCipher.model.block) 0 };
}

impl<C: BlockCipher> Block<C> {
    // The block in the first bytes of a buffer.
    pub fn new(buffer: &BlockBuffer) -> Block<C>
        ensures { result ≡ take C.BlockCipher.model.block buffer.now }
    {
        let n = C::block_len();
        let mut bytes = *buffer;
        bytes[n..].fill(0);
        Block {
            bytes,
            cipher: PhantomData,
        }
    }

    // The bytes of the block.
    pub fn as_slice(&self) -> &[u8]
        ensures value { result.now ≡ self.now }
        ensures len { length result.now ≡ C.BlockCipher.model.block }
    {
        &self.bytes[..C::block_len()]
    }

    // Writes the block to the first bytes of a buffer; the others stay.
    pub fn write(&self, buffer: &mut BlockBuffer)
        ensures { buffer.new ≡ self.now ++ drop C.BlockCipher.model.block buffer.old }
    {
        buffer[..C::block_len()].copy_from_slice(self.as_slice());
    }
}
