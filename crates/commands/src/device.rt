// A device of either kind.
ghost use Rattle.std.specs.Prelude.{◌≡◌, ℕ, List, length, OnOk, replicate};
ghost use Rattle.devices.specs.Slots.{nothing, Shape};
ghost use Rattle.devices.specs.Answers.{memory_after_set_out};
ghost use Rattle.commands.specs.Layouts.{set_out_answer, CheckAnswer, Ready, held_by, shape_by, slots_of};
ghost use Rattle.commands.specs.Meaning.{shape_of, memory_of, held_in};

use crate::layout::Layout;
use base::Refusal;
use chain::Chain;
use devices::SlotDevice;
use tray::Tray;

// A tray or a chain.
#[derive(Drop)]
pub enum Device<'a> {
    Tray(Tray<'a>),
    Chain(Chain<'a>),
}

// As with every device, an accepted call answers a number, which is 0 where none is named. A match in each call, here and below, since
// the kind is known only when a program runs.
impl<'a> Device<'a> {
    // Makes the memory that of a device with nothing in its slots.
    pub(crate) fn set_out(memory: &mut [u8], layout: Layout) -> Result<usize, Refusal>
        ensures answer { result ≡ set_out_answer layout (length memory.old) }
        ensures memory { memory.new ≡ memory_after_set_out result memory.old }
        ensures ready { OnOk result (Ready layout memory.new) }
        ensures empty { OnOk result (held_by layout memory.new ≡ replicate (slots_of layout) nothing) }
    {
        match layout {
            Layout::Tray(layout) => Tray::set_out(memory, layout),
            Layout::Chain(layout) => Chain::set_out(memory, layout),
        }
    }

    // Whether a device can be attached to the memory.
    pub fn check(memory: &[u8], layout: Layout) -> Result<usize, Refusal>
        ensures answer { CheckAnswer layout memory.now result }
        ensures ready { OnOk result (Ready layout memory.now) }
    {
        match layout {
            Layout::Tray(layout) => Tray::check(memory, layout),
            Layout::Chain(layout) => Chain::check(memory, layout),
        }
    }

    // The device in memory that `check` or `set_out` accepted.
    pub fn attach(memory: &'a mut [u8], layout: Layout) -> Device<'a>
        requires { Ready layout memory.old }
        ensures shape { shape_of result ≡ shape_by layout }
        ensures memory { memory_of result ≡ memory.old }
        ensures held { held_in result ≡ held_by layout memory.old }
    {
        match layout {
            Layout::Tray(layout) => Device::Tray(Tray::attach(memory, layout)),
            Layout::Chain(layout) => Device::Chain(Chain::attach(memory, layout)),
        }
    }
}

// Which bytes the memory then holds is for each kind to say: a clause beyond the trait's would reach no caller of any device.
impl SlotDevice for Device<'_> {
    ghost use Rattle.commands.specs.declared.device.Device.TheVariants as either;

    ghost Fixed = { Shape };

    ghost fixed = { shape_of };

    ghost State = { List ℕ };

    ghost state = { memory_of };

    ghost shape = { shape_of };

    ghost held = { held_in };

    ghost sound = { elim [ either.Tray t ↦ ⟦<Tray<'static> as SlotDevice>⟧.sound t | either.Chain c ↦ ⟦<Chain<'static> as SlotDevice>⟧.sound c ] };

    fn slots(&self) -> usize {
        match self {
            Device::Tray(tray) => tray.slots(),
            Device::Chain(chain) => chain.slots(),
        }
    }

    fn longest(&self) -> usize {
        match self {
            Device::Tray(tray) => tray.longest(),
            Device::Chain(chain) => chain.longest(),
        }
    }

    fn write(&mut self, slot: usize, row: &mut [u8]) -> Result<usize, Refusal> {
        match self {
            Device::Tray(tray) => tray.write(slot, row),
            Device::Chain(chain) => chain.write(slot, row),
        }
    }

    fn read(&mut self, slot: usize, buffer: &mut [u8]) -> Result<usize, Refusal> {
        match self {
            Device::Tray(tray) => tray.read(slot, buffer),
            Device::Chain(chain) => chain.read(slot, buffer),
        }
    }

    fn clear(&mut self, slot: usize) -> Result<usize, Refusal> {
        match self {
            Device::Tray(tray) => tray.clear(slot),
            Device::Chain(chain) => chain.clear(slot),
        }
    }

    fn length(&mut self, slot: usize) -> Result<usize, Refusal> {
        match self {
            Device::Tray(tray) => tray.length(slot),
            Device::Chain(chain) => chain.length(slot),
        }
    }

    fn fits(&mut self, slot: usize, len: usize) -> Result<usize, Refusal> {
        match self {
            Device::Tray(tray) => tray.fits(slot, len),
            Device::Chain(chain) => chain.fits(slot, len),
        }
    }
}
