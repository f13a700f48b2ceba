// What two devices hold, slot by slot.
ghost use Rattle.std.specs.Prelude.{◌≡◌, ◌++◌, IfOk, string_bytes, codes, decimal};
ghost use Rattle.screens.specs.Tables.{verdict_on};

use devices::SlotDevice;
use std::alloc::{AllocError, Global};
use text::encode;

// What a device holds in a slot: its bytes in hexadecimal, `nothing`, or `-` where there is no such slot.
fn cell<D: SlotDevice>(heap: Global, device: &mut D, slot: usize) -> Result<String, AllocError> {
    if slot >= device.slots() {
        return String::from_str(heap, "-");
    }
    let mut buffer = vec![in heap; 0; 1000]?;
    match device.read(slot, buffer.as_mut_slice()) {
        Ok(n) => {
            buffer.truncate(n);
            encode(heap, buffer.as_slice())
        }
        Err(_) => String::from_str(heap, "nothing"),
    }
}

// How the contents of a slot compare, as they are printed, which is what the contract speaks of.
fn verdict(first: &str, second: &str) -> &'static str
    ensures { result.now ≡ verdict_on first.now second.now }
{
    if first == "-" || second == "-" {
        "-"
    } else if first == second {
        "same"
    } else {
        "different"
    }
}

// The line of a slot with what two devices hold in it, and how that compares.
fn line(
    heap: Global,
    slot: usize,
    first: &str,
    second: &str,
    verdict: &str,
) -> Result<String, AllocError>
    ensures { IfOk result (λ line. string_bytes line ≡ codes "slot " ++ (decimal slot ++ (codes " " ++ (first.now ++ (codes " " ++ (second.now ++ (codes " " ++ verdict.now))))))) }
{
    format!(in heap; "slot {slot} {first} {second} {verdict}")
}

fn compare_slot<D: SlotDevice, E: SlotDevice>(
    heap: Global,
    one: &mut D,
    two: &mut E,
    slot: usize,
) -> Result<String, AllocError> {
    let first = cell(heap, one, slot)?;
    let second = cell(heap, two, slot)?;
    let verdict = verdict(first.as_str(), second.as_str());
    line(heap, slot, first.as_str(), second.as_str(), verdict)
}

// A line for each slot that either device has; by number, since a device has no list of slots to go through.
pub fn compare<D: SlotDevice, E: SlotDevice>(
    heap: Global,
    one: &mut D,
    two: &mut E,
) -> Result<Vec<String>, AllocError> {
    let mut lines = Vec::new(heap);
    for slot in 0..one.slots().max(two.slots()) {
        lines.push(compare_slot(heap, one, two, slot)?)?;
    }
    Ok(lines)
}
