// Finding a row by its first bytes, on any device.
ghost use Rattle.std.specs.Prelude.{◌≡◌, ◌<◌, ◌≤◌, length, drop, slice_index_or};
ghost use Rattle.devices.specs.Slots.{nothing};
ghost use Rattle.devices.specs.Finding.{slot_begins, Found, FindAnswer, work_after_find};
ghost use Rattle.devices.specs.Leaving.{Unchanged};

use crate::device::SlotDevice;
use base::{Refusal, wipe};

// Whether the slot's row begins with `front`; the row is read into the work buffer. That there is such a slot no type of the number
// alone can say.
fn slot_begins<D: SlotDevice>(device: &mut D, slot: usize, front: &[u8], work: &mut [u8]) -> bool
    requires room { (D.shape device.old).longest ≤ length work.old }
    requires inside { slot < (D.shape device.old).slots }
    ensures answer { result ≡ slot_begins front.now (slice_index_or (D.held device.old) slot nothing) }
    ensures rest { drop (D.shape device.old).longest work.new ≡ drop (D.shape device.old).longest work.old }
    ensures device { Unchanged D.SlotDevice device.old device.new }
{
    match device.read(slot, work) {
        Ok(n) => work[..n].starts_with(front),
        Err(_) => false,
    }
}

// The first slot whose row begins with `front`; rows are read into the work buffer.
fn first_match<D: SlotDevice>(device: &mut D, front: &[u8], work: &mut [u8]) -> Option<usize>
    requires { (D.shape device.old).longest ≤ length work.old }
    ensures answer { Found front.now (D.held device.old) result }
    ensures rest { drop (D.shape device.old).longest work.new ≡ drop (D.shape device.old).longest work.old }
    ensures device { Unchanged D.SlotDevice device.old device.new }
{
    // A loop, since no proof would know what a closure called by `find` left of the device and of the work buffer.
    for slot in 0..device.slots() {
        if slot_begins(device, slot, front, work) {
            return Some(slot);
        }
    }
    None
}

// A slot whose row begins with `front`, or none if no row does. The first bytes of the work buffer,
// as many as the longest row, are used and then zero. What it leaves of the device is spelled out and not `Unchanged`, since callers
// read the clauses one by one.
pub fn find<D: SlotDevice>(
    device: &mut D,
    front: &[u8],
    work: &mut [u8],
) -> Result<Option<usize>, Refusal>
    ensures answer { FindAnswer (D.shape device.old) (D.held device.old) front.now (length work.old) result }
    ensures after { work.new ≡ work_after_find (D.shape device.old) result work.old }
    ensures fixed { D.fixed device.new ≡ D.fixed device.old }
    ensures shape { D.shape device.new ≡ D.shape device.old }
    ensures held { D.held device.new ≡ D.held device.old }
    ensures kept { D.state device.new ≡ D.state device.old }
{
    let longest = device.longest();
    if work.len() < longest {
        return Err(Refusal::BufferTooShort);
    }
    let found = first_match(device, front, work);
    wipe(&mut work[0..longest]);
    Ok(found)
}
