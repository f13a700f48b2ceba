#![tactic(auto)]
// Sealing messages by the published HEH mode over any block cipher, and what it is made of.
mod blocks;
mod calls;
mod enciphering;
mod hashing;
mod keys;
mod laws;
mod limits;
mod mac;
mod sealing;
mod spare;

pub use calls::{open, open_with_proof, seal, seal_with_proof};
pub use hashing::hash;
pub use keys::Keys;
pub use laws::mode_laws;
pub use mac::{cmac, cmac_under_key};
