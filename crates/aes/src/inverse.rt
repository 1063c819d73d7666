// InvCipher, which deciphers a block.
ghost use Rattle.std.specs.Prelude.{◌≡◌, ◌-◌, ◌/◌, ◌≤◌, map, length};
ghost use Rattle.cipher.specs.Bytes.{word_bytes};
ghost use Rattle.aes.specs.Aes.{circulant, inv_shift_rows as inv_shift_rows_of, inv_s_box as inv_s_box_of, inv_sub_bytes as inv_sub_bytes_of, inv_mix_columns as inv_mix_columns_of, inv_round as inv_round_of, inv_cipher as inv_cipher_of};
ghost use Rattle.aes.specs.Words.{bytes_of, columns};

use crate::columns::{
    Columns, add_round_key, from_bytes, multiply, round_keys, to_bytes, to_columns,
};
use crate::inverse_tables::{inv_mix, inv_s_box};
use cipher::BlockBuffer;

// Written out beside shift_rows, and not made of it: so each column shows what it gathers.
fn inv_shift_rows(s: Columns) -> [[u8; 4]; 4]
    ensures { result ≡ columns (inv_shift_rows_of (bytes_of s)) }
{
    let [
        [a0, a1, a2, a3],
        [b0, b1, b2, b3],
        [c0, c1, c2, c3],
        [d0, d1, d2, d3],
    ] = to_columns(s);
    [
        [a0, d1, c2, b3],
        [b0, a1, d2, c3],
        [c0, b1, a2, d3],
        [d0, c1, b2, a3],
    ]
}

// InvSubBytes of a column: the line of sub_bytes with the other look-up, shorter than one function over look-ups would be.
fn inv_sub_bytes(column: [u8; 4]) -> u32
    ensures { word_bytes result ≡ map inv_s_box_of column }
{
    u32::from_be_bytes(column.map(inv_s_box))
}

// InvShiftRows and InvSubBytes.
fn inv_shift_sub(s: Columns) -> Columns
    ensures { bytes_of result ≡ inv_sub_bytes_of (inv_shift_rows_of (bytes_of s)) }
{
    inv_shift_rows(s).map(inv_sub_bytes)
}

// InvMixColumns of a column: the line of mix_column with the other look-up.
fn inv_mix_column(w: u32) -> u32
    ensures { word_bytes result ≡ circulant 0x0e 0x0b 0x0d 0x09 (word_bytes w) }
{
    multiply(w.to_be_bytes().map(inv_mix))
}

fn inv_mix_columns(s: Columns) -> Columns
    ensures { bytes_of result ≡ inv_mix_columns_of (bytes_of s) }
{
    s.map(inv_mix_column)
}

fn inv_round(s: Columns, k: &Columns) -> Columns
    ensures { bytes_of result ≡ inv_round_of (bytes_of s) k.now }
{
    inv_mix_columns(add_round_key(inv_shift_sub(s), k))
}

// InvCipher, with the words w of an expanded key, which has a round key more than there are rounds.
pub(crate) fn inv_cipher(block: &BlockBuffer, w: &[u32]) -> BlockBuffer
    requires { 8 ≤ length w.now }
    ensures { result ≡ inv_cipher_of block.now (length w.now / 4 - 1) w.now }
{
    let (first, middle, last) = round_keys(w);
    let s = add_round_key(from_bytes(block), last);
    let s = middle.iter().rev().fold(s, inv_round);
    to_bytes(add_round_key(inv_shift_sub(s), first))
}
