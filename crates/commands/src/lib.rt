#![tactic(auto)]
// What the programs over slot devices share: layouts, devices of either kind, calls as words and answers as lines.
mod answers;
mod calls;
mod device;
mod layout;

pub use answers::answer;
pub use calls::call;
pub use device::Device;
pub use layout::Layout;
