// Counter mode, for the benchmark of speed/run, which calls it through speed_c.
#![tactic(auto)]

ghost use Rattle.std.specs.Prelude.{◌≡◌, replicate};
ghost use Rattle.aes.specs.Aes.{the_model};
ghost use Rattle.speed.specs.Counter.{counter, enciphered, folded, checksum};

use aes::Aes256;
use cipher::{Block, BlockCipher, Key};

// The words of the number i, enciphered and summed.
fn turn(cipher: &Aes256, i: u32) -> u32
    ensures { result ≡ folded (enciphered the_model (⟦<Aes256 as BlockCipher>⟧.keyed cipher.now) (counter i)) }
{
    let mut block = Block::new(&u128::from(i).to_be_bytes());
    cipher.encipher(&mut block);
    let (words, _) = block.as_slice().as_chunks::<4>();
    words
        .iter()
        .fold(0, |sum, word| sum ^ u32::from_be_bytes(*word))
}

fn sum(cipher: &Aes256, count: u32) -> u32
    ensures { result ≡ checksum the_model (⟦<Aes256 as BlockCipher>⟧.keyed cipher.now) count }
{
    (0..count).fold(0, |sum, i| sum ^ turn(cipher, i))
}

// The numbers below count, enciphered by AES-256 under a key of sevens, and summed.
pub fn rattle_aes(count: u32) -> u32
    ensures { result ≡ checksum the_model (replicate 32 7) count }
{
    sum(&Aes256::schedule(&Key::new(&[7; 32])), count)
}
