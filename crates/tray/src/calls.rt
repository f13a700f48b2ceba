// The calls of a tray as a device. An accepted call answers a number, which is 0 where none is named.
ghost use Rattle.std.specs.Prelude.{◌≡◌, ℕ, ◌<◌, ◌≤◌, false, List, length, is_ok, IfOk, OnOk, MatchResult, slice_index_or};
ghost use Rattle.devices.specs.Slots.{nothing, row as row_of, Shape};
ghost use Rattle.devices.specs.Answers.{write_answer, held_after_write, row_after_write, clear_answer, held_after_clear, length_answer};
ghost use Rattle.tray.specs.Layout.{memory_after_write, memory_after_clear};
ghost use Rattle.tray.specs.Soundness.{tray_sound};
ghost use Rattle.tray.specs.Meaning.{shape_of, memory_of, held_in};

use crate::Tray;
use base::{Refusal, wipe};
use devices::SlotDevice;

impl Tray<'_> {
    // The slot's row. The chain has checks of the same shape: a trait for both would state them once more for its own functions.
    fn look(&self, slot: usize) -> Result<&[u8], Refusal>
        ensures answer { MatchResult result (λ r. length_answer (shape_of self.now) (held_in self.now) slot ≡ Ok (length r.now)) (λ why. length_answer (shape_of self.now) (held_in self.now) slot ≡ Err why) }
        ensures inside { OnOk result (slot < self.now.layout.slots) }
        ensures row { IfOk result (λ r. slice_index_or (held_in self.now) slot nothing ≡ row_of r.now) }
    {
        if slot >= self.layout.slots {
            return Err(Refusal::NoSuchSlot);
        }
        self.row_at(slot).ok_or(Refusal::EmptySlot)
    }

    // What a write of a row of `len` bytes answers.
    fn admit(&self, slot: usize, len: usize) -> Result<usize, Refusal>
        ensures answer { result ≡ write_answer (shape_of self.now) (held_in self.now) slot len }
        ensures inside { OnOk result ((slot < self.now.layout.slots) × (16 ≤ len) × (len ≤ self.now.layout.longest)) }
    {
        if slot >= self.layout.slots {
            return Err(Refusal::NoSuchSlot);
        }
        if !(16..=self.layout.longest).contains(&len) {
            return Err(Refusal::WrongLength);
        }
        Ok(0)
    }
}

impl SlotDevice for Tray<'_> {
    ghost Fixed = { Shape };

    ghost fixed = { shape_of };

    ghost State = { List ℕ };

    ghost state = { memory_of };

    ghost shape = { shape_of };

    ghost held = { held_in };

    ghost sound = { λ t. tray_sound t.layout.slots t.layout.longest (memory_of t) t.dims t.formed t.bytes };

    fn slots(&self) -> usize {
        self.layout.slots
    }

    fn longest(&self) -> usize {
        self.layout.longest
    }

    fn write(&mut self, slot: usize, row: &mut [u8]) -> Result<usize, Refusal>
        ensures fixed { shape_of self.new ≡ shape_of self.old }
        ensures shape { shape_of self.new ≡ shape_of self.old }
        ensures answer { result ≡ write_answer (shape_of self.old) (held_in self.old) slot (length row.old) }
        ensures held { held_in self.new ≡ held_after_write result (held_in self.old) slot row.old }
        ensures after { row.new ≡ row_after_write result row.old }
        ensures kept { is_ok result ≡ false → memory_of self.new ≡ memory_of self.old }
        ensures memory { memory_of self.new ≡ memory_after_write result self.old.layout.longest (memory_of self.old) slot row.old }
    {
        let answer = self.admit(slot, row.len())?;
        self.put(slot, Some(row));
        wipe(row);
        Ok(answer)
    }

    fn read(&mut self, slot: usize, buffer: &mut [u8]) -> Result<usize, Refusal> {
        let row = self.look(slot)?;
        let n = row.len();
        if buffer.len() < n {
            return Err(Refusal::BufferTooShort);
        }
        buffer[..n].copy_from_slice(row);
        Ok(n)
    }

    fn clear(&mut self, slot: usize) -> Result<usize, Refusal>
        ensures fixed { shape_of self.new ≡ shape_of self.old }
        ensures shape { shape_of self.new ≡ shape_of self.old }
        ensures answer { result ≡ clear_answer (shape_of self.old) (held_in self.old) slot }
        ensures held { held_in self.new ≡ held_after_clear result (held_in self.old) slot }
        ensures kept { is_ok result ≡ false → memory_of self.new ≡ memory_of self.old }
        ensures memory { memory_of self.new ≡ memory_after_clear result self.old.layout.longest (memory_of self.old) slot }
    {
        self.look(slot)?;
        self.put(slot, None);
        Ok(0)
    }

    fn length(&mut self, slot: usize) -> Result<usize, Refusal> {
        Ok(self.look(slot)?.len())
    }

    fn fits(&mut self, slot: usize, len: usize) -> Result<usize, Refusal> {
        self.admit(slot, len)
    }
}
