// KeyExpansion, which makes the words of the round keys.
ghost use Rattle.std.specs.Prelude.{◌≡◌, ◌-◌, ◌*◌, ◌/◌, ◌<◌, ◌≤◌, length, take};
ghost use Rattle.aes.specs.Aes.{rot_word as rot_word_of, sub_word as sub_word_of, temp as temp_of, expanded};
ghost use Rattle.aes.specs.Words.{bytes_of};

use crate::tables::{rcon, sub_bytes};

#[tactic(auto, using(crate::proofs::Turns::left1))]
fn rot_word(w: u32) -> u32
    ensures { result ≡ rot_word_of w }
{
    w.rotate_left(8)
}

fn sub_word(w: u32) -> u32
    ensures { result ≡ sub_word_of w }
{
    sub_bytes(w.to_be_bytes())
}

// What is added to w[i - nk] to make w[i], where t is w[i - 1].
#[tactic(auto, unfolding(crate::specs::Aes::temp))]
fn temp(nk: usize, i: usize, t: u32) -> u32
    requires { (nk ≤ i) × (i < 11 * nk) }
    ensures { result ≡ temp_of nk i t }
{
    match i % nk {
        0 => sub_word(rot_word(t)) ^ rcon(i / nk),
        4 if nk > 6 => sub_word(t),
        _ => t,
    }
}

// Fills w with the words that a key expands to.
pub(crate) fn key_expansion(key: &[u8], w: &mut [u32])
    requires { (length key.now / 4 ≤ length w.old) × (length w.old ≤ 11 * (length key.now / 4)) }
    ensures words { let nk = length key.now / 4 in w.new ≡ expanded nk (length w.old - nk) key.now }
    ensures front { let nk = length key.now / 4 in bytes_of (take nk w.new) ≡ take (4 * nk) key.now }
{
    let (words, _) = key.as_chunks::<4>();
    // By the place in w: of a slice that is walked beside another by `zip` the words are not known afterwards.
    for (i, bytes) in words.iter().enumerate() {
        w[i] = u32::from_be_bytes(*bytes);
    }
    // Each word that follows is made of words before it, so this loop goes by the index.
    let nk = words.len();
    for i in nk..w.len() {
        w[i] = w[i - nk] ^ temp(nk, i, w[i - 1]);
    }
}
