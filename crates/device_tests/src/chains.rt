// Chains of two slots and three cells, with rows of up to seventy bytes: 98 bytes of memory.
// One assertion below another, so that each that fails is named by its own line.
use base::Refusal;
use chain::{Chain, Layout};
use devices::SlotDevice;
use std::process::Abort;
use std::test::Fail;

// Two slots, three cells, and rows of up to seventy bytes.
const LAYOUT: Layout = Layout {
    slots: 2,
    longest: 70,
    cells: 3,
};

#[test]
fn dimensions(rt: HostRuntime) {
    let mut memory = [7u8; 98];
    assert_eq!(rt;
        Chain::set_out(&mut memory, Layout { slots: 0, ..LAYOUT }),
        Err(Refusal::BadDimensions)
    );
    assert_eq!(rt;
        Chain::set_out(
            &mut memory,
            Layout {
                slots: 65,
                ..LAYOUT
            }
        ),
        Err(Refusal::BadDimensions)
    );
    assert_eq!(rt;
        Chain::set_out(
            &mut memory,
            Layout {
                longest: 15,
                ..LAYOUT
            }
        ),
        Err(Refusal::BadDimensions)
    );
    assert_eq!(rt;
        Chain::set_out(
            &mut memory,
            Layout {
                longest: 1001,
                ..LAYOUT
            }
        ),
        Err(Refusal::BadDimensions)
    );
    assert_eq!(rt;
        Chain::set_out(&mut memory, Layout { cells: 0, ..LAYOUT }),
        Err(Refusal::BadDimensions)
    );
    assert_eq!(rt;
        Chain::set_out(
            &mut memory,
            Layout {
                cells: 256,
                ..LAYOUT
            }
        ),
        Err(Refusal::BadDimensions)
    );
    assert_eq!(rt;
        Chain::set_out(&mut memory, Layout { cells: 2, ..LAYOUT }),
        Err(Refusal::BadDimensions)
    );
    assert_eq!(rt; memory, [7u8; 98], "a declined call leaves the memory");
    assert_eq!(rt; Chain::set_out(&mut memory, LAYOUT), Ok(0));
    assert_eq!(rt; memory, [0u8; 98]);
}

// Slot 0 has a row of 46 bytes in cells 1 and 2, slot 1 and cell 3 are empty; then two bytes are changed.
fn damaged(at: usize, byte: u8, and: usize, other: u8) -> Result<usize, Refusal> {
    let mut memory = [0u8; 98];
    memory[0] = 1;
    memory[2] = 2;
    memory[3] = 30;
    memory[35] = 16;
    if at < 98 && and < 98 {
        memory[at] = byte;
        memory[and] = other;
    }
    Chain::check(&memory, LAYOUT)
}

#[test]
fn damage(rt: HostRuntime) {
    assert_eq!(rt; damaged(0, 1, 0, 1), Ok(0));
    assert_eq!(rt; damaged(4, 255, 4, 255), Ok(0), "the row may be anything");
    assert_eq!(rt;
        damaged(0, 4, 0, 4),
        Err(Refusal::MalformedMemory),
        "a head beyond the cells"
    );
    assert_eq!(rt;
        damaged(0, 0, 0, 0),
        Err(Refusal::MalformedMemory),
        "cells that no head reaches"
    );
    assert_eq!(rt;
        damaged(1, 1, 1, 1),
        Err(Refusal::MalformedMemory),
        "one chain under two heads"
    );
    assert_eq!(rt;
        damaged(1, 2, 1, 2),
        Err(Refusal::MalformedMemory),
        "a cell on two chains"
    );
    assert_eq!(rt;
        damaged(2, 1, 2, 1),
        Err(Refusal::MalformedMemory),
        "a ring of one cell"
    );
    assert_eq!(rt;
        damaged(34, 1, 35, 30),
        Err(Refusal::MalformedMemory),
        "a ring of two cells"
    );
    assert_eq!(rt;
        damaged(34, 9, 35, 30),
        Err(Refusal::MalformedMemory),
        "a next cell beyond the cells"
    );
    assert_eq!(rt;
        damaged(35, 0, 35, 0),
        Err(Refusal::MalformedMemory),
        "no byte used"
    );
    assert_eq!(rt;
        damaged(35, 31, 35, 31),
        Err(Refusal::MalformedMemory),
        "31 bytes used"
    );
    assert_eq!(rt;
        damaged(3, 29, 3, 29),
        Err(Refusal::MalformedMemory),
        "not full before the end"
    );
    assert_eq!(rt;
        damaged(52, 1, 52, 1),
        Err(Refusal::MalformedMemory),
        "a byte behind the used ones"
    );
    assert_eq!(rt;
        damaged(66, 1, 66, 1),
        Err(Refusal::MalformedMemory),
        "a free cell that is not zero"
    );
}

// Fills a chain to its last cell and empties it in another order.
fn fill_and_empty<D: SlotDevice>(rt: &impl Abort, device: &mut D) {
    let mut long = [1u8; 60];
    let mut short = [2u8; 30];
    assert_eq!(rt; device.write(0, &mut short), Ok(0));
    assert_eq!(rt; device.write(1, &mut long), Ok(0));
    assert_eq!(rt; long, [0u8; 60]);
    assert_eq!(rt; device.fits(0, 31), Err(Refusal::NoRoom));
    assert_eq!(rt; device.fits(0, 30), Ok(0), "its own old row does not count");
    assert_eq!(rt; device.write(0, &mut long), Err(Refusal::NoRoom));
    assert_eq!(rt; device.clear(0), Ok(0));
    assert_eq!(rt; device.read(1, &mut long), Ok(60));
    assert_eq!(rt; long, [1u8; 60]);
    assert_eq!(rt; device.clear(1), Ok(0));
    assert_eq!(rt; device.length(1), Err(Refusal::EmptySlot));
}

#[test]
fn full(rt: HostRuntime) -> Result<(), Fail> {
    let mut memory = [0u8; 98];
    Chain::check(&memory, LAYOUT)?;
    let mut chain = Chain::attach(&mut memory, LAYOUT);
    fill_and_empty(&rt, &mut chain);
    let left = chain.give_up();
    assert!(rt; left.len() == 98);
    assert_eq!(rt; left[0], 0);
    assert_eq!(rt; Chain::check(left, LAYOUT), Ok(0));
    Ok(())
}
