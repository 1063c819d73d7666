// The five kinds of level: how each makes keys of a key below.
#![tactic(auto)]

mod kind;
mod rule;

pub use kind::Kind;
pub use rule::Rule;
