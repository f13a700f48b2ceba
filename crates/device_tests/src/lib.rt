#![tactic(auto)]
// Examples of devices at work, kept apart so that the devices themselves are proved only once.

// How many bytes a row in these examples has.
pub const ROW: usize = 16;

#[cfg(test)]
mod calls;
#[cfg(test)]
mod chains;
#[cfg(test)]
mod trays;
