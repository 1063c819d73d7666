// What a block cipher is, and how new keys are made with one.
#![tactic(auto)]

mod block;
mod block_cipher;
mod derivation;
mod key;

pub use block::Block;
pub use block_cipher::{BlockBuffer, BlockCipher, KeyBuffer};
pub use derivation::{derive, derive_from_master, derive_numbered, renew};
pub use key::Key;
