// The rounds, on the words (a_1, a_0) of a block.
ghost use Rattle.std.specs.Prelude.{◌≡◌, reverse};
ghost use Rattle.magma.specs.Magma.{g, G, applied, rounds, round_keys};

use crate::substitution::substitute_pairs;

// g[k](a): the sum of a and k, through t, rotated.
#[tactic(auto, unfolding(crate::specs::Magma::g))]
fn g(k: u32, a: u32) -> u32
    ensures { result ≡ g k a }
{
    substitute_pairs(a.wrapping_add(k)).rotate_left(11)
}

// G[k](a_1, a_0).
fn round(a: (u32, u32), k: &u32) -> (u32, u32)
    ensures { result ≡ G k.now a }
{
    let (a1, a0) = a;
    (a0, g(*k, a0) ^ a1)
}

// G[k] for each key, the first key first.
fn forward(keys: &[u32; 8], a: (u32, u32)) -> (u32, u32)
    ensures { result ≡ applied keys.now a }
{
    keys.iter().fold(a, round)
}

// G[k] for each key, the last key first.
fn backward(keys: &[u32; 8], a: (u32, u32)) -> (u32, u32)
    ensures { result ≡ applied (reverse keys.now) a }
{
    keys.iter().rev().fold(a, round)
}

// The rounds under K_1 to K_32. The last, G*, leaves the words in their places, so they are swapped back.
#[tactic(auto, using(crate::proofs::Feistel::rounds_forward))]
pub fn encipher_halves(keys: &[u32; 8], a: (u32, u32)) -> (u32, u32)
    ensures { result ≡ rounds (round_keys keys.now) a }
{
    let (a1, a0) = backward(keys, forward(keys, forward(keys, forward(keys, a))));
    (a0, a1)
}

// The rounds under K_32 to K_1.
#[tactic(auto, using(crate::proofs::Feistel::rounds_backward))]
pub fn decipher_halves(keys: &[u32; 8], a: (u32, u32)) -> (u32, u32)
    ensures { result ≡ rounds (reverse (round_keys keys.now)) a }
{
    let (a1, a0) = backward(keys, backward(keys, backward(keys, forward(keys, a))));
    (a0, a1)
}
