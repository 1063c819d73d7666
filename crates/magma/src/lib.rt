// Magma, a block cipher on 8 bytes under a key of 32 (RFC 8891).
#![tactic(auto)]

mod pairs;
mod rounds;
mod rows;
mod substitution;
mod words;

ghost use Rattle.std.specs.Prelude.{◌≡◌};
ghost use Rattle.magma.specs.Magma.{key_words as key_words_of, key_bytes, the_model};
ghost use Rattle.magma.specs.Law;

use cipher::{Block, BlockCipher, Key};
use rounds::{decipher_halves, encipher_halves};
pub use substitution::substitute;
use words::{halves, key_words, whole};

// Magma under a key, of which the words K_1 to K_8 are kept: their bytes are the key.
#[derive(Drop)]
pub struct Magma {
    words: [u32; 8],
    ghost kept: { key_words_of (key_bytes words) ≡ words },
}

impl BlockCipher for Magma {
    ghost model = { the_model };

    ghost keyed = { λ c. key_bytes c.words };

    ghost laws = { Law.laws };

    fn block_len() -> usize {
        8
    }

    fn key_len() -> usize {
        32
    }

    fn schedule(key: &Key<Magma>) -> Magma {
        Magma {
            words: key_words(&key.bytes),
        }
    }

    fn encipher(&self, block: &mut Block<Magma>) {
        let a = halves(&block.bytes);
        block.bytes = whole(encipher_halves(&self.words, a));
    }

    fn decipher(&self, block: &mut Block<Magma>) {
        let a = halves(&block.bytes);
        block.bytes = whole(decipher_halves(&self.words, a));
    }
}
