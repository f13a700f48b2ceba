// The cells of a chain's memory, one at a time.
ghost use Rattle.std.specs.Prelude.{◌≡◌, ◌+◌, ◌*◌, ◌<◌, ◌≤◌, ◌++◌, take, drop, length};
ghost use Rattle.base.specs.Bytes.{AllBytes, zeros};
ghost use Rattle.devices.specs.Limits.{Limits};
ghost use Rattle.chain.specs.Cells.{cell, cell_of, next_of, FirstFree};
ghost use Rattle.chain.specs.Soundness.{CellLimits};

use crate::layout::Layout;

// The bytes of all cells, to read, and their count, by which the contracts count.
#[derive(Drop)]
pub struct Cells<'a> {
    pub bytes: &'a [u8],
    pub count: usize,
    ghost size: { length bytes.now ≡ count * 32 },
    ghost limit: { count ≤ 255 },
}

// A cell's number is at most the count of cells, which no type of the number alone can say, and half of it in a type would be no
// plainer: so it stands in the contracts. 0 stands for no cell, as in the bytes.
impl Cells<'_> {
    // The bytes of cell `k`.
    pub(crate) fn cell(&self, k: usize) -> &[u8]
        requires first { 1 ≤ k }
        requires last { k ≤ self.now.count }
        ensures cell { result.now ≡ cell self.now.bytes.now k }
        ensures size { length result.now ≡ 32 }
    {
        let at = (k - 1) * 32;
        &self.bytes[at..at + 32]
    }

    // The first free cell from `from` on.
    pub(crate) fn free(&self, from: usize) -> Option<usize>
        requires { 1 ≤ from }
        ensures { FirstFree self.now.count self.now.bytes.now from result }
    {
        (from..self.count + 1).find(|&k| self.cell(k)[1] == 0)
    }
}

// The owner's bytes, on loan, in a struct of their own because no fact may stand right beside a `&mut`. The tray has one too, with
// other calls on it.
#[derive(Drop)]
pub struct Loan<'a> {
    pub bytes: &'a mut [u8],
}

// The memory of a chain device: the head bytes, and the cells behind them. The linked cells are the format in which the
// owner keeps the memory between attachments, so rows lie in them and nowhere else.
#[derive(Drop)]
pub struct Memory<'a> {
    pub loan: Loan<'a>,
    pub layout: Layout,
    ghost limits: { Limits layout.slots layout.longest },
    ghost count: { CellLimits layout.cells },
    ghost size: { length loan.bytes.now ≡ layout.slots + 32 * layout.cells },
}

impl Loan<'_> {
    // Makes the bytes from `at` a cell of a next index and some bytes of row.
    fn fill_cell(&mut self, at: usize, next: u8, piece: &[u8])
        requires low { 1 ≤ length piece.now }
        requires high { length piece.now ≤ 30 }
        requires room { at + 32 ≤ length self.old.bytes.now }
        ensures cell { self.new.bytes.now ≡ take at self.old.bytes.now ++ (cell_of next piece.now ++ drop (at + 32) self.old.bytes.now) }
        ensures bytes { AllBytes piece.now }
    {
        let cell = &mut self.bytes[at..at + 32];
        cell.fill(0);
        cell[0] = next;
        cell[1] = piece.len() as u8;
        cell[2..2 + piece.len()].copy_from_slice(piece);
    }

    // Zeroes the bytes of the cell from `at`.
    fn clean_cell(&mut self, at: usize)
        requires { at + 32 ≤ length self.old.bytes.now }
        ensures { self.new.bytes.now ≡ take at self.old.bytes.now ++ (zeros 32 ++ drop (at + 32) self.old.bytes.now) }
    {
        self.bytes[at..at + 32].fill(0);
    }
}

impl Memory<'_> {
    ghost use Rattle.chain.specs.Lent.{cells_of, PutsCell};

    // The cells, to read.
    pub(crate) fn cells(&self) -> Cells<'_>
        ensures bytes { result.bytes.now ≡ cells_of self.now }
        ensures count { result.count ≡ self.now.layout.cells }
    {
        Cells {
            bytes: &self.loan.bytes[self.layout.slots..],
            count: self.layout.cells,
        }
    }

    // Puts some bytes of row into cell `k`, with `next` after it.
    pub(crate) fn link(&mut self, k: usize, next: u8, piece: &[u8])
        requires low { 1 ≤ length piece.now }
        requires high { length piece.now ≤ 30 }
        requires first { 1 ≤ k }
        requires last { k ≤ self.old.layout.cells }
        ensures put { PutsCell k (cell_of next piece.now) self.old self.new }
        ensures bytes { AllBytes piece.now }
    {
        let at = self.layout.slots + (k - 1) * 32;
        self.loan.fill_cell(at, next, piece);
    }

    // Zeroes cell `k`, and answers the cell that followed it, or 0.
    pub(crate) fn unlink(&mut self, k: usize) -> usize
        requires first { 1 ≤ k }
        requires last { k ≤ self.old.layout.cells }
        ensures next { result ≡ next_of (cells_of self.old) k }
        ensures put { PutsCell k (zeros 32) self.old self.new }
    {
        let at = self.layout.slots + (k - 1) * 32;
        let next = self.cells().cell(k)[0] as usize;
        self.loan.clean_cell(at);
        next
    }
}
