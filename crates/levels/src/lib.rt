// A level on a source of keys, which is a source itself.
#![tactic(auto)]

mod level;
mod maker;
mod step;

pub use level::Level;
