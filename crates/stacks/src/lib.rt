// The stacks that the programs name, and their keys.
#![tactic(auto)]

mod giving;
mod plan;
mod refusal;

pub use giving::key_of;
pub use plan::{AxisStack, Plan};
pub use refusal::KeyRefusal;
