// The transformation t of a word: each nibble replaced by its row.
ghost use Rattle.std.specs.Prelude.{◌≡◌, ℕ, ◌<◌, map};
ghost use Rattle.magma.specs.Magma.{Pi', t};
ghost use Rattle.magma.specs.Pairs.{pair as pair_of};

use crate::pairs::PAIRS;
use crate::rows::{ROWS, Row};
use std::array;

// What rows 2i and 2i + 1 make of a byte.
fn by_rows(rows: &[Row; 8], i: usize, b: u8) -> u8
    requires place { i < 4 }
    requires all { map (λ r. r.nibbles) rows.now ≡ Pi' }
    ensures { result ≡ pair_of i b }
{
    rows[2 * i].nibble(b) + 16 * rows[2 * i + 1].nibble(b / 16)
}

// The same, by their table.
fn by_table(i: usize, b: u8) -> u8
    requires { i < 4 }
    ensures { result ≡ pair_of i b }
{
    PAIRS[i][b as usize]
}

// t(a), where `pair` gives what two rows make of a byte.
fn by_bytes<F: Fn(usize, u8) -> u8>(a: u32, pair: F) -> u32
    requires callable { (i b : ℕ) → i < 4 → F.pre pair i b }
    requires gives { (i b x : ℕ) → F.post pair i b x → x ≡ pair_of i b }
    ensures { result ≡ t a }
{
    let bytes = a.to_le_bytes();
    u32::from_le_bytes(array::from_fn(|i| pair(i, bytes[i])))
}

// t(a), by the rows.
pub fn substitute(a: u32) -> u32
    ensures { result ≡ t a }
{
    // Once for the word: a constant with a ghost field is built anew at each use.
    let rows = &ROWS;
    by_bytes(a, |i, b| by_rows(rows, i, b))
}

// t(a), by the tables of two rows each: the same word, and faster.
pub fn substitute_pairs(a: u32) -> u32
    ensures { result ≡ t a }
{
    by_bytes(a, by_table)
}
