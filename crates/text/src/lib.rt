#![tactic(auto)]
// The text that the programs read and write: lines and words, numbers, hexadecimal byte strings, kinds of cipher, what was wrong.
pub mod fault;
pub mod hex;
pub mod kinds;
pub mod words;

pub use fault::Fault;
pub use hex::{decode, encode};
pub use kinds::CipherKind;
pub use words::{number, read_line, words_of};
