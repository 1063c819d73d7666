// The state in four words, a word for each column.
ghost use Rattle.std.specs.Prelude.{◌≡◌, ℕ, ◌-◌, ◌/◌, ◌≤◌, List, map, length};
ghost use Rattle.std.specs.List.{range_with_len};
ghost use Rattle.cipher.specs.Bytes.{Bytes, word_bytes};
ghost use Rattle.aes.specs.Aes.{circulant, add_round_key as add_round_key_of, round_key as round_key_of};
ghost use Rattle.aes.specs.Words.{bytes_of, columns, entry};

use cipher::BlockBuffer;

// Four columns, of a state or of a round key.
pub(crate) type Columns = [u32; 4];

pub(crate) fn from_bytes(block: &BlockBuffer) -> Columns
    ensures { bytes_of result ≡ block.now }
{
    let [a, b, c, d, e, f, g, h, i, j, k, l, m, n, o, p] = *block;
    [[a, b, c, d], [e, f, g, h], [i, j, k, l], [m, n, o, p]].map(u32::from_be_bytes)
}

// The columns in bytes.
pub(crate) fn to_columns(s: Columns) -> [[u8; 4]; 4]
    ensures { result ≡ columns (bytes_of s) }
{
    s.map(u32::to_be_bytes)
}

#[tactic(auto, using(crate::specs::Law::spread, crate::proofs::States::length_bytes))]
pub(crate) fn to_bytes(s: Columns) -> BlockBuffer
    ensures { result ≡ bytes_of s }
{
    let [[a, b, c, d], [e, f, g, h], [i, j, k, l], [m, n, o, p]] = to_columns(s);
    [a, b, c, d, e, f, g, h, i, j, k, l, m, n, o, p]
}

// The round keys in the words w of an expanded key: the first, those between, and the last.
pub(crate) fn round_keys(w: &[u32]) -> (&Columns, &[Columns], &Columns)
    requires { 8 ≤ length w.now }
    ensures first { result.0.now ≡ round_key_of w.now 0 }
    ensures middle { result.1.now ≡ map (round_key_of w.now) (range_with_len 1 (length w.now / 4 - 2)) }
    ensures last { result.2.now ≡ round_key_of w.now (length w.now / 4 - 1) }
{
    let (keys, _) = w.as_chunks::<4>();
    let [first, middle @ .., last] = keys else {
        unreachable!()
    };
    (first, middle, last)
}

pub(crate) fn add_round_key(s: Columns, k: &Columns) -> Columns
    ensures { bytes_of result ≡ add_round_key_of (bytes_of s) k.now }
{
    let [s0, s1, s2, s3] = s;
    let [k0, k1, k2, k3] = *k;
    [s0 ^ k0, s1 ^ k1, s2 ^ k2, s3 ^ k3]
}

// A matrix times a column, where `words` has what each byte of the column adds in row 0: each word is turned into its row.
pub(crate) fn multiply(words: [u32; 4]) -> u32
    ensures { (p q r s : ℕ) (column : List ℕ) → Bytes 4 column → words ≡ map (entry p q r s) column → word_bytes result ≡ circulant p s r q column }
{
    let [a, b, c, d] = words;
    a ^ b.rotate_right(8) ^ c.rotate_right(16) ^ d.rotate_right(24)
}
