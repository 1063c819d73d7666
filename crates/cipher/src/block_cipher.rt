// A block cipher, as all code above sees it.
ghost use Rattle.std.specs.Prelude.{◌≡◌, ℕ, List};
ghost use Rattle.cipher.specs.Model.{Model, Laws};

use crate::{Block, Key};

// Room for a block of any cipher: a block of n bytes is the first n.
pub type BlockBuffer = [u8; 16];

// Room for a key of any cipher, as callers hand it in: a key of k bytes is the first k.
pub type KeyBuffer = [u8; 32];

// A block cipher: two functions of a key and a block, of which one undoes the other.
pub trait BlockCipher: Sized + Drop {
    ghost model: { Model };

    // The key that a value was made with.
    ghost keyed: { Self → List ℕ };

    // The bytes of a block.
    fn block_len() -> usize
        ensures { result ≡ model.block };

    // The bytes of a key.
    fn key_len() -> usize
        ensures { result ≡ model.key };

    // Makes the cipher ready to work under a key.
    fn schedule(key: &Key<Self>) -> Self
        ensures { keyed result ≡ key.now };

    // Replaces a block by E of it.
    fn encipher(&self, block: &mut Block<Self>)
        ensures { block.new ≡ model.enc (keyed self.now) block.old };

    // Replaces a block by D of it.
    fn decipher(&self, block: &mut Block<Self>)
        ensures { block.new ≡ model.dec (keyed self.now) block.old };

    ghost laws: { Laws model };
}
