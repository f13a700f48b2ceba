// One call of a list on an open board.
ghost use Rattle.std.specs.Prelude.{◌≡◌};
ghost use Rattle.boards.specs.Plain.{asked, buffer_of, Unchanging, rows_after, MayOpen};

use crate::calls::{Call, Reply};
use devices::{SlotDevice, find};

// Makes a call on an open board, or on any device; to open it is out of turn, and to shut it is left to the caller.
// An accepted call that names no number answers 0.
pub fn act<D: SlotDevice>(device: &mut D, call: &mut Call) -> Reply
    ensures asked { asked call.new ≡ asked call.old }
    ensures fixed { D.SlotDevice.fixed device.new ≡ D.SlotDevice.fixed device.old }
    ensures shape { D.SlotDevice.shape device.new ≡ D.SlotDevice.shape device.old }
    ensures held { D.SlotDevice.held device.new ≡ rows_after (D.SlotDevice.shape device.old) (D.SlotDevice.held device.old) call.old }
    ensures kept { Unchanging result (asked call.old) → D.SlotDevice.state device.new ≡ D.SlotDevice.state device.old }
    ensures may { MayOpen (D.SlotDevice.shape device.old) (D.SlotDevice.held device.old) call.old (buffer_of call.new) result }
{
    match call {
        Call::Open {
            bundle: _,
            label: _,
        } => Reply::OutOfTurn,
        Call::Write { slot, row } => Reply::Answered(device.write(*slot, row.as_mut_slice())),
        Call::Read { slot, buffer } => Reply::Answered(device.read(*slot, buffer.as_mut_slice())),
        Call::Clear { slot } => Reply::Answered(device.clear(*slot)),
        Call::Length { slot } => Reply::Answered(device.length(*slot)),
        Call::Fits { slot, len } => Reply::Answered(device.fits(*slot, *len)),
        Call::Find { front, work } => {
            Reply::Found(find(device, front.as_slice(), work.as_mut_slice()))
        }
        Call::Shut => Reply::Answered(Ok(0)),
    }
}
