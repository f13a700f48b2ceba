// The cells of a tray's memory.
ghost use Rattle.std.specs.Prelude.{◌≡◌, ◌+◌, ◌-◌, ◌*◌, ◌<◌, ◌≤◌, true, ◌&&◌, length, nat_le, drop, slice_index_or, slice_set};
ghost use Rattle.devices.specs.Slots.{nothing, RowFits};
ghost use Rattle.devices.specs.Answers.{bytes_in};
ghost use Rattle.tray.specs.Layout.{cell_of, cell_length, slot_of, slot_with, cell_at, cell_formed, put_cell};
ghost use Rattle.tray.specs.Meaning.{shape_of, memory_of, held_in};

use crate::{Layout, Tray};
use base::{all_zero, wipe};
use std::ops::Range;

// The length that a cell states, and the bytes behind it. Here and below a cell has two bytes at least: a struct for that would be
// longer than the clause.
fn parts(cell: &[u8]) -> (usize, &[u8])
    requires { 2 ≤ length cell.now }
    ensures length { result.0 ≡ cell_length cell.now }
    ensures rest { result.1.now ≡ drop 2 cell.now }
{
    let (length, rest) = cell.split_at(2);
    (u16::from_le_bytes([length[0], length[1]]) as usize, rest)
}

// Whether a cell is well formed.
pub(crate) fn cell_formed(cell: &[u8]) -> bool
    requires { 2 ≤ length cell.now }
    ensures { result ≡ cell_formed (length cell.now - 2) cell.now }
{
    let (n, rest) = parts(cell);
    if n == 0 {
        return all_zero(rest);
    }
    (16..=rest.len()).contains(&n) && all_zero(&rest[n..])
}

// The row in a well-formed cell, if there is one.
fn row_in(cell: &[u8]) -> Option<&[u8]>
    requires room { 2 ≤ length cell.now }
    requires formed { cell_formed (length cell.now - 2) cell.now ≡ true }
    ensures { slot_with result ≡ slot_of cell.now }
{
    let (n, rest) = parts(cell);
    if n == 0 {
        return None;
    }
    Some(&rest[..n])
}

// Makes a cell that of a row, or of nothing: the row's length, the row, then zeros.
fn fill_cell(cell: &mut [u8], row: Option<&[u8]>)
    requires room { 2 ≤ length cell.old }
    requires limit { length cell.old ≤ 1002 }
    requires fits { length (bytes_in (slot_with row)) + 2 ≤ length cell.old }
    ensures { cell.new ≡ cell_of (length cell.old - 2) (slot_with row.entry) }
{
    match row {
        None => wipe(cell),
        Some(row) => {
            let n = row.len();
            cell[..2].copy_from_slice(&(n as u16).to_le_bytes());
            cell[2..2 + n].copy_from_slice(row);
            wipe(&mut cell[2 + n..]);
        }
    }
}

impl Layout {
    // How long a cell is.
    pub(crate) fn cell_len(self) -> usize
        requires { self.longest ≤ 1000 }
        ensures { result ≡ 2 + self.longest }
    {
        2 + self.longest
    }
}

impl Tray<'_> {
    // Where the slot's cell begins, and where it ends.
    fn place(&self, slot: usize) -> Range<usize>
        requires { slot < self.now.layout.slots }
        ensures from { result.start ≡ slot * (2 + self.now.layout.longest) }
        ensures to { result.end ≡ slot * (2 + self.now.layout.longest) + (2 + self.now.layout.longest) }
        ensures room { result.end ≤ length (memory_of self.now) }
    {
        let n = self.layout.cell_len();
        let from = slot * n;
        from..from + n
    }

    // What the slot holds: a row, or nothing.
    pub(crate) fn row_at(&self, slot: usize) -> Option<&[u8]>
        requires { slot < self.now.layout.slots }
        ensures { slot_with result ≡ slice_index_or (held_in self.now) slot nothing }
    {
        row_in(&self.memory.bytes[self.place(slot)])
    }

    // Makes the slot hold a row, or nothing. A slot's number is checked before, in `look` and `admit`: no type of the number alone can
    // say that there is such a slot.
    pub(crate) fn put(&mut self, slot: usize, row: Option<&[u8]>)
        requires inside { slot < self.old.layout.slots }
        requires fits { RowFits (shape_of self.old) (slot_with row) }
        ensures layout { self.new.layout ≡ self.old.layout }
        ensures memory { memory_of self.new ≡ put_cell self.old.layout.longest (memory_of self.old) slot (cell_of self.old.layout.longest (slot_with row.entry)) }
        ensures held { held_in self.new ≡ slice_set (held_in self.old) slot (slot_with row.entry) }
    {
        let place = self.place(slot);
        // By itself, since a part of the memory of a tray can't be lent in the same step.
        let memory = &mut self.memory;
        fill_cell(&mut memory.bytes[place], row);
    }
}
