// Answers as lines.
ghost use Rattle.std.specs.Prelude.{◌≡◌, IfOk, string_bytes, take};
ghost use Rattle.commands.specs.Answers.{line_of, accepted_line};

use boards::{Call, Reply};
use std::alloc::{AllocError, Global};
use text::{Fault, encode};

// The first n bytes, or all where there are fewer.
fn front(bytes: &[u8], n: usize) -> &[u8]
    ensures { result.now ≡ take n bytes.now }
{
    &bytes[0..n.min(bytes.len())]
}

// The line of an accepted call: the number that it answers, and the row that it read.
fn accepted(heap: Global, call: &Call, n: usize) -> Result<String, AllocError>
    ensures { IfOk result (λ line. string_bytes line ≡ accepted_line call.now n) }
{
    if let Call::Read { slot: _, buffer } = call {
        let row = encode(heap, front(buffer, n))?;
        return format!(in heap; "ok {n} {row}");
    }
    format!(in heap; "ok {n}")
}

// The line that answers a call.
pub fn answer(heap: Global, call: &Call, reply: Reply) -> Result<String, AllocError>
    ensures { IfOk result (λ line. string_bytes line ≡ line_of call.now reply) }
{
    match reply {
        Reply::OutOfTurn => String::from_str(heap, "out of turn"),
        Reply::Answered(Ok(n)) => accepted(heap, call, n),
        Reply::Found(Ok(Some(slot))) => format!(in heap; "ok {slot}"),
        Reply::Found(Ok(None)) => String::from_str(heap, "ok none"),
        Reply::Answered(Err(why)) | Reply::Found(Err(why)) => Fault::Declined(why).answer(heap),
    }
}
