ghost use Rattle.std.specs.Prelude.{◌≡◌, ◌≤◌, ◌++◌, IfOk, string_bytes, codes};
ghost use Rattle.text.specs.Hexadecimal.{word_of};

use boards::{Call, act};
use commands::{Device, Layout, answer, call};
use std::alloc::{AllocError, Global};
use text::{Fault, decode, encode, words_of};

// what is said of too few or too many words
const WRONG_COUNT: &str = "not the words of this command";

// The device of a session: between two commands it is its memory.
#[derive(Drop)]
struct Kept {
    layout: Layout,
    memory: Vec<u8>,
}

// What the commands so far have set out.
#[derive(Drop)]
pub struct Session {
    kept: Option<Kept>,
}

// How many words follow the name of a call: counted before the call is read, since this program says in its own words that there are
// too few or too many, and before it asks for a device.
fn count(name: &str) -> Result<usize, Fault>
    ensures { IfOk result (λ n. n ≤ 2) }
{
    match name {
        "memory" => Ok(0),
        "clear" | "length" => Ok(1),
        "write" | "read" | "fits" | "find" => Ok(2),
        _ => Err(Fault::Line("not a command")),
    }
}

// The line that answers a device which was set out or attached: an accepted call, for which no other number is named.
fn accepted(heap: Global) -> Result<String, Fault>
    ensures { IfOk result (λ line. string_bytes line ≡ codes "ok 0") }
{
    Ok(String::from_str(heap, "ok 0")?)
}

impl Kept {
    // The line that shows the memory.
    fn show(&self, heap: Global) -> Result<String, Fault>
        ensures { IfOk result (λ line. string_bytes line ≡ codes "ok " ++ word_of self.now.memory.items) }
    {
        let memory = encode(heap, self.memory.as_slice())?;
        Ok(format!(in heap; "ok {memory}")?)
    }

    // Makes a call on the device, and gives the line that answers it.
    fn make(&mut self, heap: Global, mut call: Call) -> Result<String, Fault> {
        // checked each time, since a proof doesn't know what the memory holds once the device that had it on loan is gone
        Device::check(self.memory.as_slice(), self.layout)?;
        let mut device = Device::attach(self.memory.as_mut_slice(), self.layout);
        let reply = act(&mut device, &mut call);
        Ok(answer(heap, &call, reply)?)
    }
}

impl Session {
    pub fn new() -> Session {
        Session { kept: None }
    }

    // The line that answers a line: nothing for one that is passed over. As in the other programs, a few lines around its own commands.
    pub fn answer(&mut self, heap: Global, line: &[u8]) -> Result<Option<String>, AllocError> {
        match self.try_answer(heap, line) {
            Ok(answer) => Ok(answer),
            Err(fault) => Ok(Some(fault.answer(heap)?)),
        }
    }

    fn try_answer(&mut self, heap: Global, line: &[u8]) -> Result<Option<String>, Fault> {
        match words_of(heap, line)?.as_slice() {
            [] => Ok(None),
            words => Ok(Some(self.obey(heap, words)?)),
        }
    }

    fn obey(&mut self, heap: Global, words: &[&str]) -> Result<String, Fault> {
        match words {
            ["device", layout @ ..] => self.set_out(heap, layout),
            ["attach", device @ ..] => self.attach(heap, device),
            [name, arguments @ ..] => {
                if arguments.len() != count(name)? {
                    return Err(Fault::Line(WRONG_COUNT));
                }
                self.call(heap, words)
            }
            [] => Err(Fault::Line("not a command")),
        }
    }

    // Sets out a device, in place of the one that there was.
    fn set_out(&mut self, heap: Global, layout: &[&str]) -> Result<String, Fault>
        ensures { IfOk result (λ line. string_bytes line ≡ codes "ok 0") }
    {
        let layout = Layout::parse(layout, WRONG_COUNT)?;
        let memory = layout.set_out(heap)?;
        self.kept = Some(Kept { layout, memory });
        accepted(heap)
    }

    // Takes a device in given memory, in place of the one that there was.
    fn attach(&mut self, heap: Global, device: &[&str]) -> Result<String, Fault>
        ensures { IfOk result (λ line. string_bytes line ≡ codes "ok 0") }
    {
        // a kind alone has neither dimensions nor memory
        let (layout, memory) = match device {
            [layout @ .., memory] if device.len() > 1 => (layout, *memory),
            _ => (device, "-"),
        };
        let layout = Layout::parse(layout, WRONG_COUNT)?;
        let memory = decode(heap, memory)?;
        Device::check(memory.as_slice(), layout)?;
        self.kept = Some(Kept { layout, memory });
        accepted(heap)
    }

    // A call, or the question for the memory, on the device that there is.
    fn call(&mut self, heap: Global, words: &[&str]) -> Result<String, Fault> {
        let Some(kept) = &mut self.kept else {
            return Err(Fault::Line("there is no device yet"));
        };
        match words {
            ["memory"] => kept.show(heap),
            _ => kept.make(heap, call(heap, words)?),
        }
    }
}
