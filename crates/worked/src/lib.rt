#![tactic(auto)]
// Worked examples of the definitions: the field, CMAC, the mode, a board's nonce, and a chain's units and room.
ghost use Rattle.std.specs.Prelude.{◌≡◌};
ghost use Rattle.worked.specs.Worked.{WorkedExamples};

use chain::chain_examples;

// The examples are what it promises; its answer, 0, says nothing more.
pub fn worked_examples() -> usize
    ensures answer { result ≡ 0 }
    ensures examples { WorkedExamples }
{
    chain_examples()
}
