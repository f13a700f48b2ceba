#![tactic(auto)]
// The tray device: memory with one cell for each slot.
ghost use Rattle.std.specs.Prelude.{◌≡◌, true, length};
ghost use Rattle.base.specs.Bytes.{AllBytes};
ghost use Rattle.tray.specs.Layout.{cells_formed};
ghost use Rattle.tray.specs.Soundness.{TrayDimensions};

mod attaching;
pub mod calls;
mod cells;

// How many slots a tray has, and how long its longest row may be.
#[derive(Clone, Copy, PartialEq, Eq, Debug)]
pub struct Layout {
    pub slots: usize,
    pub longest: usize,
}

// The bytes of a tray's memory, in a struct of their own because no fact may stand right beside a `&mut`. The chain has one too, with
// other calls on it.
#[derive(Drop)]
struct Memory<'a> {
    bytes: &'a mut [u8],
}

// A tray: a device in memory with one cell for each slot.
#[derive(Drop)]
pub struct Tray<'a> {
    memory: Memory<'a>,
    layout: Layout,
    ghost dims: { TrayDimensions layout.slots layout.longest (length memory.bytes.now) },
    ghost formed: { cells_formed layout.slots layout.longest memory.bytes.now ≡ true },
    ghost bytes: { AllBytes memory.bytes.now },
}
