// AES-256 (FIPS 197).
#![tactic(auto)]

mod columns;
mod inverse;
mod inverse_tables;
mod rounds;
mod schedule;
mod tables;

ghost use Rattle.std.specs.Prelude.{◌≡◌, take};
ghost use Rattle.aes.specs.Aes.{key_expansion as key_expansion_of, the_model};
ghost use Rattle.aes.specs.Words.{bytes_of};
ghost use Rattle.aes.specs.Law;

use cipher::{Block, BlockCipher, Key};

// The rounds.
const NR: usize = 14;

// The words of the round keys.
const WORDS: usize = 4 * (NR + 1);

// AES-256 under a key, which is the first words of its expansion.
#[derive(Drop)]
pub struct Aes256 {
    words: [u32; WORDS],
    ghost made: { words ≡ key_expansion_of 8 14 (bytes_of (take 8 words)) },
}

impl BlockCipher for Aes256 {
    ghost model = { the_model };

    ghost keyed = { λ c. bytes_of (take 8 c.words) };

    ghost laws = { Law.laws };

    fn block_len() -> usize {
        16
    }

    fn key_len() -> usize {
        32
    }

    fn schedule(key: &Key<Aes256>) -> Aes256 {
        let mut words = [0; WORDS];
        schedule::key_expansion(&key.bytes, &mut words);
        Aes256 { words }
    }

    fn encipher(&self, block: &mut Block<Aes256>) {
        block.bytes = rounds::cipher(&block.bytes, &self.words);
    }

    fn decipher(&self, block: &mut Block<Aes256>) {
        block.bytes = inverse::inv_cipher(&block.bytes, &self.words);
    }
}
