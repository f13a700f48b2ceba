// Examples of what rows cost, as a theorem.
ghost use Rattle.std.specs.Prelude.{◌≡◌};
ghost use Rattle.chain.specs.Examples.{ChainExamples};

// Worked examples of units and room, in the contract; answers 0.
pub fn chain_examples() -> usize
    ensures value { result ≡ 0 }
    ensures examples { ChainExamples }
{
    0
}
