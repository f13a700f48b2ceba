// Calls, layouts and answers on real memory, which no contract promises.
use boards::act;
use commands::{Device, Layout, answer, call};
use std::alloc::Global;
use std::test::Fail;
use text::words_of;

// The line that answers a line of words.
fn answered(heap: Global, device: &mut Device, line: &str) -> Result<String, Fail> {
    let words = words_of(heap, line.as_bytes()).ok().ok_or("no words")?;
    let mut call = call(heap, words.as_slice()).ok().ok_or("no call")?;
    let reply = act(device, &mut call);
    Ok(answer(heap, &call, reply)?)
}

#[test]
fn calls_on_a_chain(rt: HostRuntime) -> Result<(), Fail> {
    let heap = rt.alloc();
    let words = ["chain", "2", "70", "3"];
    let layout = Layout::parse(&words, "wrong count")
        .ok()
        .ok_or("no layout")?;
    let mut memory = layout.set_out(heap).ok().ok_or("not set out")?;
    assert_eq!(rt; memory.len(), 98);
    let mut device = Device::attach(memory.as_mut_slice(), layout);
    for (line, want) in [
        ("write 1 000102030405060708090a0b0c0d0e0f", "ok 0"),
        ("write 0 00", "declined 6 WrongLength"),
        ("read 1 20", "ok 16 000102030405060708090a0b0c0d0e0f"),
        ("length 1", "ok 16"),
        ("fits 0 61", "declined 9 NoRoom"),
        ("find 0001 70", "ok 1"),
        ("find 01 70", "ok none"),
        ("clear 1", "ok 0"),
        ("open 00 -", "out of turn"),
        ("shut", "ok 0"),
    ] {
        let answer = answered(heap, &mut device, line)?;
        assert_eq!(rt; answer.as_str(), want, "{line}");
    }
    Ok(())
}
