// Layouts of either kind of device.
ghost use Rattle.std.specs.Prelude.{◌≡◌, map, MatchResult, replicate};
ghost use Rattle.base.specs.Bytes.{zeros};
ghost use Rattle.devices.specs.Slots.{nothing};
ghost use Rattle.commands.specs.Layouts.{size_of, Ready, held_by, slots_of, NotSetOut};
ghost use Rattle.commands.specs.Wording.{OfTray, OfChain, LayoutMeans, LayoutRead};

use crate::device::Device;
use std::alloc::Global;
use text::{Fault, number};

// The kind of a device, and its dimensions.
#[derive(Clone, Copy, PartialEq, Eq, Debug)]
pub enum Layout {
    Tray(tray::Layout),
    Chain(chain::Layout),
}

impl Layout {
    // The layout that words stand for. No `TryFrom`, since each program says in its own words, `wrong_count`, that
    // there are too few or too many dimensions; what is said is left open by the contract.
    pub fn parse(words: &[&str], wrong_count: &'static str) -> Result<Layout, Fault>
        ensures { LayoutRead (LayoutMeans (map (λ w. w.now) words.now)) result }
    {
        match words {
            ["tray", dims @ ..] => Layout::tray(dims, wrong_count),
            ["chain", dims @ ..] => Layout::chain(dims, wrong_count),
            _ => Err(Fault::Line("not a device")),
        }
    }

    fn tray(dims: &[&str], wrong_count: &'static str) -> Result<Layout, Fault>
        ensures { LayoutRead (OfTray (map (λ w. w.now) dims.now)) result }
    {
        match dims {
            [slots, longest] => Ok(Layout::Tray(tray::Layout {
                slots: number(slots)?,
                longest: number(longest)?,
            })),
            _ => Err(Fault::Line(wrong_count)),
        }
    }

    fn chain(dims: &[&str], wrong_count: &'static str) -> Result<Layout, Fault>
        ensures { LayoutRead (OfChain (map (λ w. w.now) dims.now)) result }
    {
        match dims {
            [slots, longest, cells] => Ok(Layout::Chain(chain::Layout {
                slots: number(slots)?,
                longest: number(longest)?,
                cells: number(cells)?,
            })),
            _ => Err(Fault::Line(wrong_count)),
        }
    }

    // How long the memory is; dimensions that no device has are declined at any length. Here, so that no device has to state a size.
    fn size(self) -> usize
        ensures { result ≡ size_of self }
    {
        match self {
            Layout::Tray(tray) if tray.slots <= 64 && tray.longest <= 1000 => {
                tray.slots * (2 + tray.longest)
            }
            Layout::Chain(chain) if chain.slots <= 64 && chain.cells <= 255 => {
                chain.slots + 32 * chain.cells
            }
            _ => 0,
        }
    }

    // New memory with a device of this layout in it, which holds nothing.
    pub fn set_out(self, heap: Global) -> Result<Vec<u8>, Fault>
        ensures { MatchResult result (λ memory. Ready self memory.items × (held_by self memory.items ≡ replicate (slots_of self) nothing) × (memory.items ≡ zeros (size_of self))) (NotSetOut self) }
    {
        let mut memory = vec![in heap; 0; self.size()]?;
        Device::set_out(memory.as_mut_slice(), self)?;
        Ok(memory)
    }
}
