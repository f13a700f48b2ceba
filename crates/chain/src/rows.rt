// Rows on a chain's cells: reading, costing, taking away and laying out.
ghost use Rattle.std.specs.Prelude.{◌≡◌, ◌+◌, ◌*◌, ◌<◌, ◌≤◌, [], ◌++◌, length, drop, slice_index, slice_index_or};
ghost use Rattle.base.specs.Bytes.{AllBytes};
ghost use Rattle.devices.specs.Slots.{units_held, units_of_others};
ghost use Rattle.chain.specs.Cells.{chain_units};

use crate::Chain;
use crate::cells::Memory;

// How many cells a row of `len` bytes takes.
pub(crate) fn units(len: usize) -> usize
    ensures { result ≡ chain_units len }
{
    len.div_ceil(30)
}

impl Chain<'_> {
    ghost use Rattle.chain.specs.Lent.{rows_held};
    ghost use Rattle.chain.specs.Meaning.{shape_of, held_in};

    // How long the slot's row is. A slot that holds nothing has a row of no bytes, which costs no units.
    pub(crate) fn row_length(&self, slot: usize) -> usize
        requires { slot < self.now.memory.layout.slots }
        ensures value { result ≡ length (slice_index_or (rows_held self.now.memory) slot []) }
        ensures short { result ≤ self.now.memory.layout.cells * 30 }
    {
        let cells = self.memory.cells();
        let mut k = self.memory.loan.bytes[slot] as usize;
        let mut at = 0;
        // by the links, here and below: an iterator over a chain would state in its own contract that the cells are linked rightly
        while k > 0 {
            let cell = cells.cell(k);
            at += cell[1] as usize;
            k = cell[0] as usize;
        }
        at
    }

    // Copies the slot's row into the first bytes of the buffer, and answers how long it is.
    pub(crate) fn copy_row(&self, slot: usize, buffer: &mut [u8]) -> usize
        requires slot { slot < self.now.memory.layout.slots }
        requires room { length (slice_index_or (rows_held self.now.memory) slot []) ≤ length buffer.old }
        ensures value { result ≡ length (slice_index_or (rows_held self.now.memory) slot []) }
        ensures after { buffer.new ≡ slice_index_or (rows_held self.now.memory) slot [] ++ drop result buffer.old }
    {
        let cells = self.memory.cells();
        let mut k = self.memory.loan.bytes[slot] as usize;
        let mut at = 0;
        while k > 0 {
            let cell = cells.cell(k);
            let n = cell[1] as usize;
            buffer[at..at + n].copy_from_slice(&cell[2..2 + n]);
            at += n;
            k = cell[0] as usize;
        }
        at
    }

    // The units of the rows in the other slots, added up over the heads in turn: by a loop, since the bound of
    // a sum over an iterator would need an answer of its own.
    pub(crate) fn units_of_others(&self, slot: usize) -> usize
        ensures value { result ≡ units_of_others (shape_of self.now) (held_in self.now) slot }
        ensures few { result ≤ self.now.memory.layout.slots * 255 }
    {
        let mut sum = 0;
        for i in 0..self.memory.layout.slots {
            if i != slot {
                sum += units(self.row_length(i));
            }
        }
        sum
    }
}

// Between these calls the cells are linked rightly, and within them they are not: so that is no invariant of the memory. A slot's
// number is checked in `look` and `admit`, and no type of the number alone can say that there is such a slot.
impl Memory<'_> {
    ghost use Rattle.chain.specs.Lent.{heads_of, IsLinked, memory_shape, memory_holds, PutsRow};

    // Gives back the cells of the slot's chain, zeroed, and zeroes its head.
    pub(crate) fn release(&mut self, slot: usize)
        requires linked { IsLinked self.old }
        requires slot { slot < self.old.layout.slots }
        ensures put { PutsRow slot [] self.old self.new }
        ensures head { slice_index (heads_of self.new) slot ≡ 0 }
    {
        let mut k = self.loan.bytes[slot] as usize;
        while k > 0 {
            k = self.unlink(k);
        }
        self.loan.bytes[slot] = 0;
    }

    // Lays a row into free cells, its last piece first, and makes the slot's head its first cell.
    pub(crate) fn build(&mut self, slot: usize, row: &[u8])
        requires linked { IsLinked self.old }
        requires slot { slot < self.old.layout.slots }
        requires none { slice_index (heads_of self.old) slot ≡ 0 }
        requires room { units_held (memory_shape self.old) (memory_holds self.old) + chain_units (length row.now) ≤ self.old.layout.cells }
        ensures put { PutsRow slot row.now self.old self.new }
        ensures bytes { AllBytes row.now }
    {
        let mut next: u8 = 0;
        let mut from = 1;
        for piece in row.chunks(30).rev() {
            let k = self.cells().free(from).unwrap();
            self.link(k, next, piece);
            next = k as u8;
            from = k + 1;
        }
        self.loan.bytes[slot] = next;
    }

    // Puts a row in the place of the slot's.
    pub(crate) fn replace(&mut self, slot: usize, row: &[u8])
        requires linked { IsLinked self.old }
        requires slot { slot < self.old.layout.slots }
        requires room { units_of_others (memory_shape self.old) (memory_holds self.old) slot + chain_units (length row.now) ≤ self.old.layout.cells }
        ensures put { PutsRow slot row.now self.old self.new }
        ensures bytes { AllBytes row.now }
    {
        self.release(slot);
        self.build(slot, row);
    }
}
