#![tactic(auto)]
// Runs two lists of calls on two screens, and shows each answer and what the slots then hold.
mod script;
mod table;

use script::Script;
use std::alloc::Global;
use std::io;
use std::io::{BufRead, BufReader, BufWriter, Write};
use text::read_line;

// Takes every line of the input into the script.
fn take_all<R: BufRead>(heap: Global, input: &mut R, script: &mut Script) -> io::Result<()> {
    let mut line = Vec::new(heap);
    // `lines` would end at a line that is not text, and `split` makes a new buffer for each; as in the other programs, a few lines
    // around its own commands
    for _ in 0..u64::MAX {
        if !read_line(input, &mut line)? {
            break;
        }
        script.take(heap, &line)?;
    }
    Ok(())
}

// Writes lines, each with its end.
fn write_lines<W: Write>(lines: &[String], output: &mut W) -> io::Result<()> {
    for line in lines {
        output.write_all(line.as_bytes())?;
        output.write_all(b"\n")?;
    }
    Ok(())
}

fn main(rt: HostRuntime) -> io::Result<()> {
    let heap = rt.alloc();
    let mut input = BufReader::new(heap, rt.stdin())?;
    let mut script = Script::new(heap);
    take_all(heap, &mut input, &mut script)?;
    let lines = script.run(heap)?;
    let mut output = BufWriter::new(heap, rt.stdout())?;
    write_lines(&lines, &mut output)?;
    output.flush()
}
