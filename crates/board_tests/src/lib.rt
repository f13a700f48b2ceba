#![tactic(auto)]
// Examples of boards at work, kept apart so that the boards themselves are proved only once.

// How many bytes a key bundle has for ciphers with keys of sixteen bytes.
pub const BUNDLE: usize = 48;

#[cfg(test)]
mod lists;
#[cfg(test)]
mod piles;
