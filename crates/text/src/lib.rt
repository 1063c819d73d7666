// Text as the programs here read and write it: hexadecimal, decimal numbers, and words.
#![tactic(auto)]

mod decimal;
mod fault;
mod hexadecimal;
mod words;

pub use decimal::from_decimal;
pub use fault::HexFault;
pub use hexadecimal::{from_hex, to_hex};
pub use words::{is, split_words};
