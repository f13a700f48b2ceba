// Calls as words tell them.
ghost use Rattle.std.specs.Prelude.{◌≡◌, ℕ, ◌≤◌, map, MatchResult, vec_len};
ghost use Rattle.base.specs.Bytes.{zeros};
ghost use Rattle.text.specs.Decimal.{Spells};
ghost use Rattle.text.specs.Faults.{AtFaultOrFull};
ghost use Rattle.commands.specs.Wording.{OfNone, OfOne, OfTwo, Means, CallRead};

use boards::Call;
use std::alloc::Global;
use text::{Fault, decode, number};

// the longest buffer that a call may ask for
const LONGEST_BUFFER: usize = 70000;

// A buffer of zeros, as long as the word says.
fn buffer(heap: Global, word: &str) -> Result<Vec<u8>, Fault>
    ensures { MatchResult result (λ b. Spells word.now (vec_len b) × (vec_len b ≤ LONGEST_BUFFER) × (b.items ≡ zeros (vec_len b))) (λ fault. AtFaultOrFull fault ((n : ℕ) → n ≤ LONGEST_BUFFER → Spells word.now n → ⊥)) }
{
    let len = number(word)?;
    if len > LONGEST_BUFFER {
        return Err(Fault::Line("a buffer may have 70000 bytes"));
    }
    Ok(vec![in heap; 0; len]?)
}

// The call of a name alone.
fn alone(name: &str) -> Result<Call, Fault>
    ensures { CallRead (OfNone name.now) result }
{
    match name {
        "shut" => Ok(Call::Shut),
        _ => Err(Fault::Line("not a call")),
    }
}

// The call of a name and the number of a slot.
fn on_slot(name: &str, slot: &str) -> Result<Call, Fault>
    ensures { CallRead (OfOne name.now slot.now) result }
{
    match name {
        "clear" => Ok(Call::Clear {
            slot: number(slot)?,
        }),
        "length" => Ok(Call::Length {
            slot: number(slot)?,
        }),
        _ => Err(Fault::Line("not a call")),
    }
}

// The call of a name and two words.
fn with_two(heap: Global, name: &str, first: &str, second: &str) -> Result<Call, Fault>
    ensures { CallRead (OfTwo name.now first.now second.now) result }
{
    match name {
        "open" => Ok(Call::Open {
            bundle: decode(heap, first)?,
            label: decode(heap, second)?,
        }),
        "write" => Ok(Call::Write {
            slot: number(first)?,
            row: decode(heap, second)?,
        }),
        "read" => Ok(Call::Read {
            slot: number(first)?,
            buffer: buffer(heap, second)?,
        }),
        "fits" => Ok(Call::Fits {
            slot: number(first)?,
            len: number(second)?,
        }),
        "find" => Ok(Call::Find {
            front: decode(heap, first)?,
            work: buffer(heap, second)?,
        }),
        _ => Err(Fault::Line("not a call")),
    }
}

// The call that words stand for. No `TryFrom`, since it takes memory; by the number of words, as one match of all calls
// leaves the answer to other words unproved.
pub fn call(heap: Global, words: &[&str]) -> Result<Call, Fault>
    ensures { CallRead (Means (map (λ w. w.now) words.now)) result }
{
    match words {
        [name] => alone(name),
        [name, slot] => on_slot(name, slot),
        [name, first, second] => with_two(heap, name, first, second),
        _ => Err(Fault::Line("not a call")),
    }
}
