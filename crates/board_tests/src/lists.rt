// A list of calls on a screen whose device is itself a board.
use base::Refusal;
use boards::{Board, Call, Entry, Ready, Reply, Screen, run_on_board};
use ciphers::{Aes128, Speck128};
use devices::SlotDevice;
use std::process::Abort;
use std::test::Fail;

// A call, not answered yet; the program `screens` has the same, with a contract, of the words of a call.
fn entry(call: Call) -> Entry {
    Entry {
        call,
        reply: Reply::OutOfTurn,
    }
}

// A list over a board on this device, which has one cell left for slot 1.
pub fn work_by_list<D: SlotDevice + Drop>(
    rt: &(impl Abort + AllocGlobal),
    device: D,
) -> Result<(), Fail> {
    let lower = Ready::<Speck128>::prepare(&[1u8; 48], b"lower")?;
    let mut list = [
        entry(Call::Length { slot: 1 }),
        entry(Call::Open {
            bundle: [2u8; 48].to_vec(rt.alloc())?,
            label: b"upper".to_vec(rt.alloc())?,
        }),
        entry(Call::Fits { slot: 1, len: 31 }),
        entry(Call::Write {
            slot: 1,
            row: [6u8; 16].to_vec(rt.alloc())?,
        }),
        entry(Call::Find {
            front: [6u8; 2].to_vec(rt.alloc())?,
            work: [0u8; 70].to_vec(rt.alloc())?,
        }),
        entry(Call::Shut),
    ];
    let device = match run_on_board::<Aes128, _, _>(Board::open(lower, device), &mut list) {
        Screen::Shut(lower) => lower.shut(),
        Screen::Open(upper) => upper.shut().shut(),
    };
    drop(device);
    assert_eq!(rt; list[0].reply, Reply::OutOfTurn);
    assert_eq!(rt; list[1].reply, Reply::Answered(Ok(0)));
    assert_eq!(rt; list[2].reply, Reply::Answered(Err(Refusal::NoRoom)));
    assert_eq!(rt; list[3].reply, Reply::Answered(Ok(0)));
    assert_eq!(rt; list[4].reply, Reply::Found(Ok(Some(1))));
    assert_eq!(rt; list[5].reply, Reply::Answered(Ok(0)));
    Ok(())
}
