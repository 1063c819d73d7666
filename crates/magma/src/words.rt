// The words of a key and of a block, highest byte first.
ghost use Rattle.std.specs.Prelude.{◌≡◌, take, drop, replicate};
ghost use Rattle.magma.specs.Magma.{key_words as key_words_of, key_bytes, halves as halves_of, whole as whole_of};

use cipher::{BlockBuffer, KeyBuffer};
use std::array;

// K_1 to K_8, whose bytes are the key.
pub fn key_words(key: &KeyBuffer) -> [u32; 8]
    ensures value { result ≡ key_words_of key.now }
    ensures bytes { key_bytes result ≡ key.now }
{
    let (words, _) = key.as_chunks::<4>();
    array::from_fn(|i| u32::from_be_bytes(words[i]))
}

// The words a_1 and a_0 of a block.
pub fn halves(block: &BlockBuffer) -> (u32, u32)
    ensures { result ≡ halves_of block.now }
{
    let [a, b, c, d, e, f, g, h, ..] = *block;
    (
        u32::from_be_bytes([a, b, c, d]),
        u32::from_be_bytes([e, f, g, h]),
    )
}

// The block of the words a_1 and a_0, in the first bytes, and zeros behind it.
pub fn whole(a: (u32, u32)) -> BlockBuffer
    ensures value { take 8 result ≡ whole_of a }
    ensures rest { drop 8 result ≡ replicate 8 0 }
{
    let (a1, a0) = a;
    let [a, b, c, d] = a1.to_be_bytes();
    let [e, f, g, h] = a0.to_be_bytes();
    [a, b, c, d, e, f, g, h, 0, 0, 0, 0, 0, 0, 0, 0]
}
