// New keys, made by enciphering blocks under a key (RFC 8645).
ghost use Rattle.std.specs.Prelude.{◌≡◌, ℕ, ◌+◌, ◌*◌, ◌<◌, ◌≤◌, List, length, take};
ghost use Rattle.std.specs.List.{range_with_len};
ghost use Rattle.cipher.specs.Bytes.{number};
ghost use Rattle.cipher.specs.Derivation.{parts, made, marked, renewed, derived, numbered_key, master_key};
ghost use Rattle.cipher.specs.KeyBlocks.{block as block_of};

use crate::{Block, BlockCipher, Key};

// The blocks that are enciphered, one after the other, to make a key. Closures that make the blocks would each repeat
// their blocks' contract where they are written.
#[derive(Clone, Copy)]
pub(crate) enum KeyBlocks {
    // The bytes 80, 81 .. 9F, cut into blocks.
    Constants,
    // The numbers from this one on, a block each.
    Numbers(u32),
    // The numbers that belong to this key number, where so many belong to each, a block each: their first is counted where
    // no bound on it has to be asked.
    Run(u32, u8),
    // The same numbers in half a block each, behind bytes FF.
    MarkedRun(u32, u8),
}

// Writes a number, highest byte first.
fn write_number(block: &mut [u8], t: u64)
    ensures { block.new ≡ number (length block.old) t }
{
    let mut rest = t;
    // Turned at the end: of a slice that is walked by `rev` the bytes are not known afterwards.
    for byte in block.iter_mut() {
        *byte = (rest % 256) as u8;
        rest /= 256;
    }
    block.reverse();
}

// Writes `first` and the bytes that follow it.
fn write_ascending(block: &mut [u8], first: u8)
    requires { first + length block.old ≤ 256 }
    ensures { block.new ≡ range_with_len first (length block.old) }
{
    for (i, byte) in block.iter_mut().enumerate() {
        *byte = first + i as u8;
    }
}

// Writes bytes FF, and a number in the second half of the block.
fn write_marked(block: &mut [u8], t: u64)
    ensures { block.new ≡ marked (length block.old) t }
{
    let n = block.len();
    block.fill(0xff);
    write_number(&mut block[n / 2..n], t);
}

impl KeyBlocks {
    // Writes block j.
    #[tactic(auto, unfolding(crate::specs::Derivation::constant))]
    fn write(self, j: usize, block: &mut [u8])
        requires { (128 + j * length block.old + length block.old ≤ 256) × (j < 4) }
        ensures { block.new ≡ block_of (length block.old) self j }
    {
        let n = block.len();
        match self {
            KeyBlocks::Constants => write_ascending(block, (128 + j * n) as u8),
            KeyBlocks::Numbers(t) => write_number(block, t as u64 + j as u64),
            KeyBlocks::Run(k, parts) => write_number(block, k as u64 * parts as u64 + j as u64),
            KeyBlocks::MarkedRun(k, parts) => write_marked(
                block,
                k as u64 * parts as u64 + j as u64,
            ),
        }
    }
}

// E of block j.
fn enciphered<C: BlockCipher>(cipher: &C, blocks: KeyBlocks, j: usize) -> Block<C>
    requires { j < parts C.BlockCipher.model }
    ensures { result ≡ C.BlockCipher.model.enc (C.BlockCipher.keyed cipher.now) (block_of C.BlockCipher.model.block blocks j) }
{
    let n = C::block_len();
    let mut buffer = [0; 16];
    blocks.write(j, &mut buffer[..n]);
    let mut block = Block::new(&buffer);
    cipher.encipher(&mut block);
    block
}

// E under the key of the blocks, as many as make a key, joined.
fn make<C: BlockCipher>(key: &Key<C>, blocks: KeyBlocks) -> Key<C>
    ensures { result ≡ made C.BlockCipher.model key.now (block_of C.BlockCipher.model.block blocks) }
{
    let cipher = C::schedule(key);
    let n = C::block_len();
    let mut out = [0; 32];
    // By its number j: of a slice cut by `chunks_exact_mut` only the length is known after the loop.
    for j in 0..C::key_len() / n {
        let block = enciphered(&cipher, blocks, j);
        out[j * n..j * n + n].copy_from_slice(block.as_slice());
    }
    Key::new(&out)
}

// The key renewed once (ACPKM).
pub fn renew<C: BlockCipher>(key: &Key<C>) -> Key<C>
    ensures { result ≡ renewed C.BlockCipher.model key.now }
{
    make(key, KeyBlocks::Constants)
}

// The key that the blocks numbered from `first` on make.
pub fn derive<C: BlockCipher>(key: &Key<C>, first: u32) -> Key<C>
    ensures { result ≡ derived C.BlockCipher.model key.now first }
{
    make(key, KeyBlocks::Numbers(first))
}

// How many blocks make a key.
fn key_parts<C: BlockCipher>() -> u8
    ensures { result ≡ parts C.BlockCipher.model }
{
    (C::key_len() / C::block_len()) as u8
}

// The key of that number: it is made of the numbers that belong to it.
pub fn derive_numbered<C: BlockCipher>(key: &Key<C>, number: u32) -> Key<C>
    ensures { result ≡ numbered_key C.BlockCipher.model key.now number }
{
    make(key, KeyBlocks::Run(number, key_parts::<C>()))
}

// The key of that number under a master key (ACPKM-Master).
pub fn derive_from_master<C: BlockCipher>(key: &Key<C>, number: u32) -> Key<C>
    ensures { result ≡ master_key C.BlockCipher.model key.now number }
{
    make(key, KeyBlocks::MarkedRun(number, key_parts::<C>()))
}
