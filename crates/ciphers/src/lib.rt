#![tactic(auto)]
// Block ciphers: what every cipher means, and the ciphers that there are.
pub mod aes;
pub mod cipher;
pub mod speck;

pub use aes::{Aes128, aes_laws};
pub use cipher::BlockCipher;
pub use speck::Speck128;
