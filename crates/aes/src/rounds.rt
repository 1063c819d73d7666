// Cipher, which enciphers a block.
ghost use Rattle.std.specs.Prelude.{◌≡◌, ◌-◌, ◌/◌, ◌≤◌, map, length};
ghost use Rattle.cipher.specs.Bytes.{word_bytes};
ghost use Rattle.aes.specs.Aes.{s_box, circulant, shift_rows as shift_rows_of, round as round_of, last_round as last_round_of, cipher as cipher_of};
ghost use Rattle.aes.specs.Words.{bytes_of, columns};

use crate::columns::{
    Columns, add_round_key, from_bytes, multiply, round_keys, to_bytes, to_columns,
};
use crate::tables::{sub_bytes, sub_mix};
use cipher::BlockBuffer;

fn shift_rows(s: Columns) -> [[u8; 4]; 4]
    ensures { result ≡ columns (shift_rows_of (bytes_of s)) }
{
    let [
        [a0, a1, a2, a3],
        [b0, b1, b2, b3],
        [c0, c1, c2, c3],
        [d0, d1, d2, d3],
    ] = to_columns(s);
    [
        [a0, b1, c2, d3],
        [b0, c1, d2, a3],
        [c0, d1, a2, b3],
        [d0, a1, b2, c3],
    ]
}

// SubBytes and MixColumns of a column.
fn mix_column(column: [u8; 4]) -> u32
    ensures { word_bytes result ≡ circulant 0x02 0x03 0x01 0x01 (map s_box column) }
{
    multiply(column.map(sub_mix))
}

fn round(s: Columns, k: &Columns) -> Columns
    ensures { bytes_of result ≡ round_of (bytes_of s) k.now }
{
    add_round_key(shift_rows(s).map(mix_column), k)
}

// A round without MixColumns.
fn last_round(s: Columns, k: &Columns) -> Columns
    ensures { bytes_of result ≡ last_round_of (bytes_of s) k.now }
{
    add_round_key(shift_rows(s).map(sub_bytes), k)
}

// Cipher, with the words w of an expanded key, which has a round key more than there are rounds.
pub(crate) fn cipher(block: &BlockBuffer, w: &[u32]) -> BlockBuffer
    requires { 8 ≤ length w.now }
    ensures { result ≡ cipher_of block.now (length w.now / 4 - 1) w.now }
{
    let (first, middle, last) = round_keys(w);
    let s = add_round_key(from_bytes(block), first);
    to_bytes(last_round(middle.iter().fold(s, round), last))
}
