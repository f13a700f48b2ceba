#![tactic(auto)]
// Boards over any slot device, and lists of calls on screens.
pub mod acts;
pub mod board;
pub mod calls;
mod label;
pub mod ready;
pub mod runs;

pub use acts::act;
pub use board::Board;
pub use calls::{Call, Entry, Reply};
pub use label::LABEL_LIMIT;
pub use ready::Ready;
pub use runs::{Screen, run, run_on_board, run_two};
