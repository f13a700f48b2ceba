#![tactic(auto)]
// What every layer shares: the refusals, and byte strings.
pub mod bytes;
pub mod refusals;

pub use bytes::{all_zero, wipe, xor_front};
pub use refusals::Refusal;
