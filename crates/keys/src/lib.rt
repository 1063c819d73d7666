// Sources of keys.
#![tactic(auto)]

mod bottom;
mod keys;
mod refusals;
mod ring;
mod root;
mod source;
mod walking;

pub use refusals::{MakingFault, MoveFault, Refusal};
pub use ring::Ring;
pub use root::Root;
pub use source::KeySource;
pub use walking::walk;
