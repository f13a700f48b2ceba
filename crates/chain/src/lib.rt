#![tactic(auto)]
// The chain device: rows in chains of cells of 32 bytes.
ghost use Rattle.chain.specs.Memory.{WellFormed};

mod cells;
mod checking;
mod device;
mod examples;
mod layout;
mod rows;

use cells::Memory;
pub use examples::chain_examples;
pub use layout::Layout;

// A chain: a device in its owner's memory, which stays well formed.
#[derive(Drop)]
pub struct Chain<'a> {
    memory: Memory<'a>,
    ghost formed: { ∥ WellFormed memory.layout.slots memory.layout.longest memory.layout.cells memory.loan.bytes.now ∥₁ },
}
