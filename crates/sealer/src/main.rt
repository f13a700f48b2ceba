#![tactic(auto)]
// Reads commands on ciphers and messages, one a line, and answers each with one line.
mod commands;
mod kinds;
mod sealing;
mod work;

use commands::respond;
use std::io;
use std::io::{BufReader, BufWriter, Write};
use text::read_line;

fn main(rt: HostRuntime) -> io::Result<()> {
    let heap = rt.alloc();
    let mut input = BufReader::new(heap, rt.stdin())?;
    let mut output = BufWriter::new(heap, rt.stdout())?;
    let mut line = Vec::new(heap);
    // `lines` would end at a line that is not text, and `split` makes a new buffer for each; as in the other programs, a few lines
    // around its own commands
    for _ in 0..u64::MAX {
        if !read_line(&mut input, &mut line)? {
            break;
        }
        if let Some(answer) = respond(heap, &line)? {
            output.write_all(answer.as_bytes())?;
            output.write_all(b"\n")?;
        }
    }
    output.flush()
}
