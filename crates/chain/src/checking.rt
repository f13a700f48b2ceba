// Checking that memory is well formed.
ghost use Rattle.std.specs.Prelude.{◌≡◌, ℕ, ◌+◌, ◌*◌, ◌≤◌, ◌↔◌, false, length, replicate, IsTrue, IsSome, MatchOption};
ghost use Rattle.base.specs.Bytes.{AllBytes, zeros};
ghost use Rattle.chain.specs.Cells.{cell, RightCell, RightChain, chain_from, row_in, chains_of, times_in, times_on, times_met};
ghost use Rattle.chain.specs.Memory.{HeadsFit, WellFormed};

use crate::cells::Cells;
use crate::layout::Layout;
use base::all_zero;

impl Cells<'_> {
    // Whether cell `k` may stand on a chain.
    fn is_right(&self, k: usize) -> bool
        requires { 1 ≤ k }
        ensures { IsTrue result ↔ RightCell self.now.count self.now.bytes.now k }
    {
        if k > self.count {
            return false;
        }
        let cell = self.cell(k);
        let n = cell[1] as usize;
        // by comparison, here and below: with `contains` the proof did not close
        if n < 1 || n > 30 {
            return false;
        }
        if cell[0] != 0 && n != 30 {
            return false;
        }
        all_zero(&cell[2 + n..])
    }

    // Follows the chain that begins at `head`, and marks each of its cells in `met`, which has a place for each number. Answers the length of its row, or none
    // where the chain is not right or comes to a cell that was met before. So all chains together take a step for each cell.
    fn follow(&self, head: usize, met: &mut [bool; 256]) -> Option<usize>
        ensures chain { MatchOption result (RightChain self.now.count self.now.bytes.now self.now.count head → ((k : ℕ) → times_met met.old k + times_in k (chain_from self.now.bytes.now self.now.count head) ≤ 1) → ⊥) (λ n. RightChain self.now.count self.now.bytes.now self.now.count head × (n ≡ length (row_in self.now.bytes.now (chain_from self.now.bytes.now self.now.count head)))) }
        ensures met { IsSome result → (k : ℕ) → times_met met.new k ≡ times_met met.old k + times_in k (chain_from self.now.bytes.now self.now.count head) }
    {
        let mut k = head;
        let mut at: usize = 0;
        let mut left = self.count;
        while k > 0 {
            if left == 0 || !self.is_right(k) {
                return None;
            }
            if met[k] {
                return None;
            }
            met[k] = true;
            let cell = self.cell(k);
            at += cell[1] as usize;
            k = cell[0] as usize;
            left -= 1;
        }
        Some(at)
    }

    // Whether every head's chain is right, with a row of a right length, and no cell is met twice. Marks the cells in `met`.
    fn follow_all(&self, heads: &[u8], longest: usize, met: &mut [bool; 256]) -> bool
        requires fit { AllBytes self.now.bytes.now }
        requires none { met.old ≡ replicate 256 false }
        ensures fit { IsTrue result ↔ HeadsFit longest self.now.count self.now.bytes.now heads.now }
        ensures met { IsTrue result → (k : ℕ) → times_met met.new k ≡ times_on k (chains_of self.now.count self.now.bytes.now heads.now) }
    {
        for head in heads {
            let Some(n) = self.follow(*head as usize, met) else {
                return false;
            };
            if n > 0 && (n < 16 || n > longest) {
                return false;
            }
        }
        true
    }

    // Whether every cell that was not met is zero.
    fn rest_zero(&self, met: &[bool; 256]) -> bool
        ensures { IsTrue result ↔ ((k : ℕ) → 1 ≤ k → k ≤ self.now.count → times_met met.now k ≡ 0 → cell self.now.bytes.now k ≡ zeros 32) }
    {
        (1..self.count + 1).all(|k| met[k] || all_zero(self.cell(k)))
    }
}

// Whether the memory is well formed: one pass over the chains, and one over the cells.
pub(crate) fn well_formed(memory: &[u8], layout: Layout) -> bool
    requires size { length memory.now ≡ layout.slots + 32 * layout.cells }
    requires limit { layout.cells ≤ 255 }
    ensures { IsTrue result ↔ WellFormed layout.slots layout.longest layout.cells memory.now }
{
    let (heads, bytes) = memory.split_at(layout.slots);
    let cells = Cells {
        bytes,
        count: layout.cells,
    };
    // a flag for each number that a cell can have, since nothing is allocated
    let mut met = [false; 256];
    cells.follow_all(heads, layout.longest, &mut met) && cells.rest_zero(&met)
}
