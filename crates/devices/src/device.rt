// What every slot device keeps.
ghost use Rattle.std.specs.Prelude.{◌≡◌, false, List, length, is_ok};
ghost use Rattle.devices.specs.Slots.{Slot, Shape, Sound};
ghost use Rattle.devices.specs.Answers.{write_answer, held_after_write, row_after_write, read_answer, buffer_after_read, clear_answer, held_after_clear, length_answer};

use base::Refusal;

// A device keeps rows in numbered slots. A ghost member says what an implementation means, and each call is an
// equation with that meaning, for every argument. A declined call, a read and a question leave `state` as found. An
// accepted call answers a number, which is 0 where none is named. Each call states its clauses one by one, since callers read
// them one by one.
pub trait SlotDevice {
    // what no call ever changes
    ghost Fixed: { Type 0 };

    ghost fixed: { Self → Fixed };

    // what a declined call, a read and a question promise to leave as it was; a tray and a chain choose all bytes of
    // their memory
    ghost State: { Type 0 };

    ghost state: { Self → State };

    // the slots, the longest row, the units of each length and their total
    ghost shape: { Self → Shape };

    // what each slot holds
    ghost held: { Self → List Slot };

    // shape and rows are within the limits
    ghost sound: { (d : Self) → Sound (shape d) (held d) };

    // How many slots there are.
    fn slots(&self) -> usize
        ensures { result ≡ (shape self.now).slots };

    // How long a row may be.
    fn longest(&self) -> usize
        ensures { result ≡ (shape self.now).longest };

    // Puts the row into the slot and zeroes the caller's row.
    fn write(&mut self, slot: usize, row: &mut [u8]) -> Result<usize, Refusal>
        ensures fixed { fixed self.new ≡ fixed self.old }
        ensures shape { shape self.new ≡ shape self.old }
        ensures answer { result ≡ write_answer (shape self.old) (held self.old) slot (length row.old) }
        ensures held { held self.new ≡ held_after_write result (held self.old) slot row.old }
        ensures after { row.new ≡ row_after_write result row.old }
        ensures kept { is_ok result ≡ false → state self.new ≡ state self.old };

    // Fills the first bytes of the buffer with the slot's row, and answers how many.
    fn read(&mut self, slot: usize, buffer: &mut [u8]) -> Result<usize, Refusal>
        ensures fixed { fixed self.new ≡ fixed self.old }
        ensures shape { shape self.new ≡ shape self.old }
        ensures answer { result ≡ read_answer (shape self.old) (held self.old) slot (length buffer.old) }
        ensures held { held self.new ≡ held self.old }
        ensures after { buffer.new ≡ buffer_after_read result (held self.old) slot buffer.old }
        ensures kept { state self.new ≡ state self.old };

    // Empties the slot.
    fn clear(&mut self, slot: usize) -> Result<usize, Refusal>
        ensures fixed { fixed self.new ≡ fixed self.old }
        ensures shape { shape self.new ≡ shape self.old }
        ensures answer { result ≡ clear_answer (shape self.old) (held self.old) slot }
        ensures held { held self.new ≡ held_after_clear result (held self.old) slot }
        ensures kept { is_ok result ≡ false → state self.new ≡ state self.old };

    // How long the slot's row is.
    fn length(&mut self, slot: usize) -> Result<usize, Refusal>
        ensures fixed { fixed self.new ≡ fixed self.old }
        ensures shape { shape self.new ≡ shape self.old }
        ensures answer { result ≡ length_answer (shape self.old) (held self.old) slot }
        ensures held { held self.new ≡ held self.old }
        ensures kept { state self.new ≡ state self.old };

    // What a write of a row of `len` bytes would answer.
    fn fits(&mut self, slot: usize, len: usize) -> Result<usize, Refusal>
        ensures fixed { fixed self.new ≡ fixed self.old }
        ensures shape { shape self.new ≡ shape self.old }
        ensures answer { result ≡ write_answer (shape self.old) (held self.old) slot len }
        ensures held { held self.new ≡ held self.old }
        ensures kept { state self.new ≡ state self.old };
}
