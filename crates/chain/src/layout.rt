// The layout of a chain's memory.
ghost use Rattle.std.specs.Prelude.{◌≡◌};
ghost use Rattle.chain.specs.Memory.{wrong_dimensions};

use devices::within_limits;

// How a chain's memory is laid out: so many heads, and behind them so many cells, for rows of up to `longest` bytes.
// Any numbers may stand here; setting out and checking refuse those that are out of range.
#[derive(Clone, Copy, PartialEq, Eq, Debug)]
pub struct Layout {
    pub slots: usize,
    pub longest: usize,
    pub cells: usize,
}

impl Layout {
    // Whether a dimension is out of range, or `len` bytes are not the layout's; by comparison, as the definition has it.
    pub(crate) fn is_wrong(self, len: usize) -> bool
        ensures { result ≡ wrong_dimensions self.slots self.longest self.cells len }
    {
        !within_limits(self.slots, self.longest)
            || self.cells < 1
            || self.cells > 255
            || len != self.slots + 32 * self.cells
    }
}
