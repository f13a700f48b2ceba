// A board over a board over a chain.
use crate::lists::work_by_list;
use base::Refusal;
use boards::{Board, Ready};
use chain::{Chain, Layout};
use ciphers::{Aes128, Speck128};
use devices::SlotDevice;
use std::process::Abort;
use std::test::Fail;

// A row of 31 bytes, on a device with room for three cells of thirty bytes.
fn work_on<D: SlotDevice>(rt: &impl Abort, device: &mut D) -> Result<(), Fail> {
    let mut row = [7u8; 31];
    assert_eq!(rt; device.write(0, &mut row), Ok(0));
    assert_eq!(rt; row, [0u8; 31]);
    let mut buffer = [9u8; 33];
    assert_eq!(rt; device.read(0, &mut buffer), Ok(31));
    assert_eq!(rt; buffer[30], 7);
    assert_eq!(rt; buffer[31], 9, "no byte beyond the row");
    assert_eq!(rt;
        device.write(1, &mut buffer),
        Err(Refusal::NoRoom),
        "the chain's refusal comes up unchanged"
    );
    assert_eq!(rt; buffer[31], 9, "a declined write leaves the row");
    assert_eq!(rt; device.read(1, &mut buffer), Err(Refusal::EmptySlot));
    Ok(())
}

fn pile<D: SlotDevice + Drop>(rt: &(impl Abort + AllocGlobal), device: D) -> Result<(), Fail> {
    let lower = Ready::<Speck128>::prepare(&[1u8; 48], b"lower")?;
    let upper = Ready::<Aes128>::prepare(&[2u8; 48], b"upper")?;
    let mut board = Board::open(upper, Board::open(lower, device));
    let done = work_on(rt, &mut board);
    let mut device = board.shut().shut();
    done?;
    let mut buffer = [0u8; 33];
    assert_eq!(rt; device.read(0, &mut buffer), Ok(31));
    assert!(rt;
        buffer[30] != 7 || buffer[29] != 7 || buffer[28] != 7,
        "below, the row is sealed"
    );
    work_by_list(rt, device)
}

#[test]
fn board_on_board_on_chain(rt: HostRuntime) -> Result<(), Fail> {
    let mut memory = [0u8; 98];
    let layout = Layout {
        slots: 2,
        longest: 70,
        cells: 3,
    };
    Chain::check(&memory, layout)?;
    pile(&rt, Chain::attach(&mut memory, layout))
}

#[test]
fn openings_declined(rt: HostRuntime) {
    assert_eq!(rt; Ready::<Aes128>::prepare(&[0u8; 47], b"").is_ok(), false);
    assert_eq!(rt;
        Ready::<Aes128>::prepare(&[0u8; 48], b"thirteen long").is_ok(),
        false
    );
    assert_eq!(rt;
        Ready::<Aes128>::prepare(&[0u8; 48], b"twelve chars").is_ok(),
        true
    );
}
