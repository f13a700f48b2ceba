// The chain: setting out, attaching and giving up, and the calls of a device. An accepted call answers a number, which is 0 where
// none is named. The tray has calls and checks of the same shape: a trait for both would state each of them once more.
ghost use Rattle.std.specs.Prelude.{◌≡◌, ℕ, ◌+◌, ◌<◌, ◌≤◌, true, false, List, [], length, is_ok, IfOk, OnOk, slice_index_or};
ghost use Rattle.devices.specs.Slots.{units_of_others};
ghost use Rattle.devices.specs.Answers.{write_answer, held_after_write, row_after_write, clear_answer, held_after_clear, length_answer, memory_after_set_out};
ghost use Rattle.chain.specs.Cells.{chain_units};
ghost use Rattle.chain.specs.Memory.{chain_held, chain_shape, set_out_answer, holds_nothing, Attachable, CheckAnswer, MemoryAfterWrite, MemoryAfterClear};
ghost use Rattle.chain.specs.Soundness.{chain_sound};
ghost use Rattle.chain.specs.Meaning.{memory_of, shape_of, held_in};
ghost use Rattle.chain.specs.declared.layout.Layout.{Layout};

use crate::Chain;
use crate::cells::{Loan, Memory};
use crate::checking::well_formed;
use crate::layout::Layout;
use crate::rows::units;
use base::{Refusal, wipe};
use devices::SlotDevice;

impl<'a> Chain<'a> {
    ghost use Rattle.chain.specs.Lent.{rows_held};

    // Sets out an empty device: zeroes the memory.
    pub fn set_out(memory: &mut [u8], layout: Layout) -> Result<usize, Refusal>
        ensures answer { result ≡ set_out_answer layout.slots layout.longest layout.cells (length memory.old) }
        ensures memory { memory.new ≡ memory_after_set_out result memory.old }
        ensures attachable { is_ok result ≡ true → Attachable layout.slots layout.longest layout.cells memory.new }
        ensures empty { is_ok result ≡ true → chain_held layout.slots layout.cells memory.new ≡ holds_nothing layout.slots }
    {
        if layout.is_wrong(memory.len()) {
            return Err(Refusal::BadDimensions);
        }
        wipe(memory);
        Ok(0)
    }

    // Whether the memory can be attached.
    pub fn check(memory: &[u8], layout: Layout) -> Result<usize, Refusal>
        ensures { CheckAnswer layout.slots layout.longest layout.cells memory.now result }
    {
        if layout.is_wrong(memory.len()) {
            return Err(Refusal::BadDimensions);
        }
        if !well_formed(memory, layout) {
            return Err(Refusal::MalformedMemory);
        }
        Ok(0)
    }

    // The device in memory that a check has accepted.
    pub fn attach(memory: &'a mut [u8], layout: Layout) -> Chain<'a>
        requires { Attachable layout.slots layout.longest layout.cells memory.old }
        ensures shape { shape_of result ≡ chain_shape layout.slots layout.longest layout.cells }
        ensures memory { memory_of result ≡ memory.old }
        ensures held { held_in result ≡ chain_held layout.slots layout.cells memory.old }
    {
        let loan = Loan { bytes: memory };
        let memory = Memory { loan, layout };
        Chain { memory }
    }

    // Gives the memory back, with all that the chain holds.
    pub fn give_up(self) -> &'a mut [u8]
        ensures memory { result.now ≡ memory_of self.entry }
        ensures attachable { Attachable (shape_of self.entry).slots (shape_of self.entry).longest (shape_of self.entry).total result.now }
    {
        let Chain { memory, .. } = self;
        let Memory { loan, .. } = memory;
        let Loan { bytes } = loan;
        bytes
    }

    // The length of the slot's row.
    fn look(&self, slot: usize) -> Result<usize, Refusal>
        ensures answer { result ≡ length_answer (shape_of self.now) (held_in self.now) slot }
        ensures inside { IfOk result (λ n. (slot < self.now.memory.layout.slots) × (1 ≤ n) × (length (slice_index_or (rows_held self.now.memory) slot []) ≡ n)) }
    {
        if slot >= self.memory.layout.slots {
            return Err(Refusal::NoSuchSlot);
        }
        let n = self.row_length(slot);
        if n == 0 {
            return Err(Refusal::EmptySlot);
        }
        Ok(n)
    }

    // What a write of a row of `len` bytes answers.
    fn admit(&self, slot: usize, len: usize) -> Result<usize, Refusal>
        ensures answer { result ≡ write_answer (shape_of self.now) (held_in self.now) slot len }
        ensures inside { OnOk result ((slot < self.now.memory.layout.slots) × (16 ≤ len) × (len ≤ self.now.memory.layout.longest) × (units_of_others (shape_of self.now) (held_in self.now) slot + chain_units len ≤ self.now.memory.layout.cells)) }
    {
        if slot >= self.memory.layout.slots {
            return Err(Refusal::NoSuchSlot);
        }
        // by comparison: with `contains` the proof did not close
        if len < 16 || len > self.memory.layout.longest {
            return Err(Refusal::WrongLength);
        }
        if self.units_of_others(slot) + units(len) > self.memory.layout.cells {
            return Err(Refusal::NoRoom);
        }
        Ok(0)
    }
}

impl SlotDevice for Chain<'_> {
    ghost Fixed = { Layout };

    ghost fixed = { λ t. t.memory.layout };

    ghost State = { List ℕ };

    ghost state = { memory_of };

    ghost shape = { shape_of };

    ghost held = { held_in };

    ghost sound = { λ t. chain_sound t.memory.layout.slots t.memory.layout.longest t.memory.layout.cells (memory_of t) t.memory.limits t.memory.count t.memory.size t.formed };

    fn slots(&self) -> usize {
        self.memory.layout.slots
    }

    fn longest(&self) -> usize {
        self.memory.layout.longest
    }

    fn write(&mut self, slot: usize, row: &mut [u8]) -> Result<usize, Refusal>
        ensures fixed { self.new.memory.layout ≡ self.old.memory.layout }
        ensures shape { shape_of self.new ≡ shape_of self.old }
        ensures answer { result ≡ write_answer (shape_of self.old) (held_in self.old) slot (length row.old) }
        ensures held { held_in self.new ≡ held_after_write result (held_in self.old) slot row.old }
        ensures after { row.new ≡ row_after_write result row.old }
        ensures kept { is_ok result ≡ false → memory_of self.new ≡ memory_of self.old }
        ensures memory { MemoryAfterWrite result (shape_of self.old).slots (shape_of self.old).total slot (memory_of self.old) (memory_of self.new) }
    {
        self.admit(slot, row.len())?;
        self.memory.replace(slot, row);
        wipe(row);
        Ok(0)
    }

    fn read(&mut self, slot: usize, buffer: &mut [u8]) -> Result<usize, Refusal> {
        let n = self.look(slot)?;
        if buffer.len() < n {
            return Err(Refusal::BufferTooShort);
        }
        Ok(self.copy_row(slot, buffer))
    }

    fn clear(&mut self, slot: usize) -> Result<usize, Refusal>
        ensures fixed { self.new.memory.layout ≡ self.old.memory.layout }
        ensures shape { shape_of self.new ≡ shape_of self.old }
        ensures answer { result ≡ clear_answer (shape_of self.old) (held_in self.old) slot }
        ensures held { held_in self.new ≡ held_after_clear result (held_in self.old) slot }
        ensures kept { is_ok result ≡ false → memory_of self.new ≡ memory_of self.old }
        ensures memory { MemoryAfterClear result (shape_of self.old).slots (shape_of self.old).total slot (memory_of self.old) (memory_of self.new) }
    {
        self.look(slot)?;
        self.memory.release(slot);
        Ok(0)
    }

    fn length(&mut self, slot: usize) -> Result<usize, Refusal> {
        self.look(slot)
    }

    fn fits(&mut self, slot: usize, len: usize) -> Result<usize, Refusal> {
        self.admit(slot, len)
    }
}
