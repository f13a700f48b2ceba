#![tactic(auto)]
// Looks into one slot device: reads commands, one a line, and answers each with one line.
mod session;

use session::Session;
use std::alloc::Global;
use std::io;
use std::io::{BufRead, BufReader, BufWriter, Write};
use text::read_line;

// Answers every line of the input.
fn answer_all<R: BufRead, W: Write>(heap: Global, input: &mut R, output: &mut W) -> io::Result<()> {
    let mut session = Session::new();
    let mut line = Vec::new(heap);
    // `lines` would end at a line that is not text, and `split` makes a new buffer for each; as in the other programs, a few lines
    // around its own commands
    for _ in 0..u64::MAX {
        if !read_line(input, &mut line)? {
            break;
        }
        if let Some(answer) = session.answer(heap, &line)? {
            output.write_all(answer.as_bytes())?;
            output.write_all(b"\n")?;
        }
    }
    output.flush()
}

fn main(rt: HostRuntime) -> io::Result<()> {
    let mut input = BufReader::new(rt.alloc(), rt.stdin())?;
    let mut output = BufWriter::new(rt.alloc(), rt.stdout())?;
    answer_all(rt.alloc(), &mut input, &mut output)
}
