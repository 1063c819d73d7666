// Requests for one key of a stack: the words of one, its answer, and the text of the answer.
#![tactic(auto)]

mod reading;
mod request;
mod telling;

pub use reading::read_key_request;
pub use request::{KeyFault, KeyRequest, KeyWords};
pub use telling::answer_key;
