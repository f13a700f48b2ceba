// Setting out a tray, attaching one to memory, and giving the memory back.
ghost use Rattle.std.specs.Prelude.{◌≡◌, true, length, replicate, OnOk};
ghost use Rattle.devices.specs.Slots.{nothing};
ghost use Rattle.devices.specs.Answers.{memory_after_set_out};
ghost use Rattle.tray.specs.Layout.{tray_shape, tray_held, cells_formed, tray_fits, TrayReady, tray_set_out_answer, tray_check_answer};
ghost use Rattle.tray.specs.Soundness.{TrayDimensions};
ghost use Rattle.tray.specs.Meaning.{shape_of, memory_of, held_in};

use crate::cells::cell_formed;
use crate::{Layout, Memory, Tray};
use base::{Refusal, wipe};
use devices::within_limits;

impl Layout {
    // Whether so many bytes are a tray's memory.
    fn fits(self, len: usize) -> bool
        ensures answer { result ≡ tray_fits self.slots self.longest len }
        ensures dims { result ≡ true → TrayDimensions self.slots self.longest len }
    {
        within_limits(self.slots, self.longest) && len == self.slots * self.cell_len()
    }

    // Whether each cell of a tray's memory is well formed.
    fn cells_formed(self, memory: &[u8]) -> bool
        requires { TrayDimensions self.slots self.longest (length memory.now) }
        ensures { result ≡ cells_formed self.slots self.longest memory.now }
    {
        memory.chunks_exact(self.cell_len()).all(cell_formed)
    }
}

// As with every device, an accepted call answers a number, which is 0 where none is named. The chain has calls of the same shape: a
// trait for both would state each of them once more.
impl<'a> Tray<'a> {
    // Makes the memory that of a tray with nothing in its slots.
    pub fn set_out(memory: &mut [u8], layout: Layout) -> Result<usize, Refusal>
        ensures answer { result ≡ tray_set_out_answer layout.slots layout.longest (length memory.old) }
        ensures memory { memory.new ≡ memory_after_set_out result memory.old }
        ensures ready { OnOk result (TrayReady layout.slots layout.longest memory.new) }
        ensures empty { OnOk result (tray_held layout.slots layout.longest memory.new ≡ replicate layout.slots nothing) }
    {
        if !layout.fits(memory.len()) {
            return Err(Refusal::BadDimensions);
        }
        wipe(memory);
        Ok(0)
    }

    // Whether a tray can be attached to the memory.
    pub fn check(memory: &[u8], layout: Layout) -> Result<usize, Refusal>
        ensures answer { result ≡ tray_check_answer layout.slots layout.longest memory.now }
        ensures ready { OnOk result (TrayReady layout.slots layout.longest memory.now) }
    {
        if !layout.fits(memory.len()) {
            return Err(Refusal::BadDimensions);
        }
        if !layout.cells_formed(memory) {
            return Err(Refusal::MalformedMemory);
        }
        Ok(0)
    }

    // The tray in memory that `check` or `set_out` accepted.
    pub fn attach(memory: &'a mut [u8], layout: Layout) -> Tray<'a>
        requires { TrayReady layout.slots layout.longest memory.old }
        ensures shape { shape_of result ≡ tray_shape layout.slots layout.longest }
        ensures memory { memory_of result ≡ memory.old }
        ensures held { held_in result ≡ tray_held layout.slots layout.longest memory.old }
    {
        Tray {
            memory: Memory { bytes: memory },
            layout,
        }
    }

    // Gives the memory back, with all that the tray holds.
    pub fn give_up(self) -> &'a mut [u8]
        ensures memory { result.now ≡ memory_of self.entry }
        ensures ready { TrayReady (shape_of self.entry).slots (shape_of self.entry).longest result.now }
    {
        let Tray { memory, layout: _ } = self;
        let Memory { bytes } = memory;
        bytes
    }
}
