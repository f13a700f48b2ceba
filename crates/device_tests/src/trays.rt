// Trays of two slots with rows of up to twenty bytes: 44 bytes of memory.
// One assertion below another, so that each that fails is named by its own line.
use base::Refusal;
use devices::{SlotDevice, find};
use std::test::Fail;
use tray::{Layout, Tray};

const LAYOUT: Layout = Layout {
    slots: 2,
    longest: 20,
};

// Sets out a tray of so many slots and rows of up to so many bytes.
fn set_out(memory: &mut [u8], slots: usize, longest: usize) -> Result<usize, Refusal> {
    Tray::set_out(memory, Layout { slots, longest })
}

#[test]
fn dimensions(rt: HostRuntime) {
    let mut memory = [7u8; 44];
    assert_eq!(rt; set_out(&mut memory, 0, 20), Err(Refusal::BadDimensions));
    assert_eq!(rt; set_out(&mut memory, 65, 20), Err(Refusal::BadDimensions));
    assert_eq!(rt; set_out(&mut memory, 2, 15), Err(Refusal::BadDimensions));
    assert_eq!(rt; set_out(&mut memory, 2, 1001), Err(Refusal::BadDimensions));
    assert_eq!(rt; set_out(&mut memory, 2, 19), Err(Refusal::BadDimensions));
    assert_eq!(rt; memory, [7u8; 44], "a declined call leaves the memory");
    assert_eq!(rt; set_out(&mut memory, 2, 20), Ok(0));
    assert_eq!(rt; memory, [0u8; 44]);
}

// The memory with one byte changed.
fn damaged(at: usize, byte: u8) -> Result<usize, Refusal> {
    let mut memory = [0u8; 44];
    memory[0] = 18;
    if at < 44 {
        memory[at] = byte;
    }
    Tray::check(&memory, LAYOUT)
}

#[test]
fn damage(rt: HostRuntime) {
    assert_eq!(rt; damaged(0, 18), Ok(0));
    assert_eq!(rt; damaged(2, 255), Ok(0), "the row may be anything");
    assert_eq!(rt;
        damaged(0, 15),
        Err(Refusal::MalformedMemory),
        "a row of 15 bytes"
    );
    assert_eq!(rt; damaged(0, 16), Ok(0));
    assert_eq!(rt; damaged(0, 20), Ok(0));
    assert_eq!(rt;
        damaged(0, 21),
        Err(Refusal::MalformedMemory),
        "a row of 21 bytes"
    );
    assert_eq!(rt;
        damaged(1, 1),
        Err(Refusal::MalformedMemory),
        "a row of 274 bytes"
    );
    assert_eq!(rt;
        damaged(20, 1),
        Err(Refusal::MalformedMemory),
        "a byte behind the row"
    );
    assert_eq!(rt;
        damaged(24, 1),
        Err(Refusal::MalformedMemory),
        "a byte in an empty slot"
    );
}

#[test]
fn calls(rt: HostRuntime) -> Result<(), Fail> {
    let mut memory = [0u8; 44];
    Tray::check(&memory, LAYOUT)?;
    let mut tray = Tray::attach(&mut memory, LAYOUT);
    let mut row = [5u8; 17];
    assert_eq!(rt; tray.write(2, &mut row), Err(Refusal::NoSuchSlot));
    assert_eq!(rt; tray.write(1, &mut row[0..15]), Err(Refusal::WrongLength));
    assert_eq!(rt; row, [5u8; 17], "a declined write leaves the row");
    assert_eq!(rt; tray.read(1, &mut row), Err(Refusal::EmptySlot));
    assert_eq!(rt; tray.write(1, &mut row), Ok(0));
    assert_eq!(rt; row, [0u8; 17]);
    let mut buffer = [9u8; 20];
    assert_eq!(rt;
        tray.read(1, &mut buffer[0..16]),
        Err(Refusal::BufferTooShort)
    );
    assert_eq!(rt; find(&mut tray, b"\x05\x05", &mut buffer), Ok(Some(1)));
    assert_eq!(rt; buffer, [0u8; 20]);
    assert_eq!(rt; find(&mut tray, b"\x05\x06", &mut buffer), Ok(None));
    assert_eq!(rt;
        find(&mut tray, b"", &mut buffer[0..19]),
        Err(Refusal::BufferTooShort)
    );
    assert_eq!(rt; tray.clear(1), Ok(0));
    assert_eq!(rt; tray.clear(1), Err(Refusal::EmptySlot));
    Ok(())
}
