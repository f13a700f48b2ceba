#![tactic(auto)]
// Slot devices: what every device keeps, its limits, and finding a row on any of them.
pub mod device;
pub mod finding;
pub mod limits;

pub use device::SlotDevice;
pub use finding::find;
pub use limits::within_limits;
