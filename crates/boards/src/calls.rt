// Calls as values, with their arguments, the buffers they work on and their answers.
use base::Refusal;

// A call on a screen, with its own arguments and buffers.
#[derive(Drop)]
pub enum Call {
    Open { bundle: Vec<u8>, label: Vec<u8> },
    Write { slot: usize, row: Vec<u8> },
    Read { slot: usize, buffer: Vec<u8> },
    Clear { slot: usize },
    Length { slot: usize },
    Fits { slot: usize, len: usize },
    Find { front: Vec<u8>, work: Vec<u8> },
    Shut,
}

// What a call was answered.
#[derive(Clone, Copy, PartialEq, Eq, Debug)]
pub enum Reply {
    // passed over: an opening while a board is open, or another call while none is
    OutOfTurn,
    // the call's own answer
    Answered(Result<usize, Refusal>),
    // the answer of a find: the slot that was found, or none
    Found(Result<Option<usize>, Refusal>),
}

// A call of a list, and its answer once the list has been run.
#[derive(Drop)]
pub struct Entry {
    pub call: Call,
    // OutOfTurn until then: an Option would give who reads a list that was run a case that never occurs
    pub reply: Reply,
}
