// A script: its screens, its cipher and the two lists of calls.
ghost use Rattle.std.specs.Prelude.{◌≡◌, map, IfOk};
ghost use Rattle.boards.specs.Screens.{behind};
ghost use Rattle.boards.specs.declared.calls.Reply.TheVariants.{OutOfTurn};
ghost use Rattle.commands.specs.Wording.{Means};

use crate::table::compare;
use boards::{Entry, Reply, Screen, run_two};
use ciphers::{Aes128, BlockCipher, Speck128};
use commands::{Device, Layout, answer, call};
use devices::SlotDevice;
use std::alloc::{AllocError, Global};
use text::{CipherKind, Fault, words_of};

// The two screens.
#[derive(Clone, Copy)]
enum Which {
    One,
    Two,
}

// A screen: how it is set out, and its list of calls.
#[derive(Drop)]
struct Side {
    layout: Option<Layout>,
    calls: Vec<Entry>,
}

// A line of the script: answered at once, or the call at this place of a screen's list, which `run_two` takes as one slice. No
// Result, since neither is an error.
#[derive(Drop)]
enum Line {
    Answered(String),
    Called { on: Which, text: String, at: usize },
}

#[derive(Drop)]
pub struct Script {
    one: Side,
    two: Side,
    cipher: Option<CipherKind>,
    lines: Vec<Line>,
}

// The call that words stand for, not answered yet.
fn entry(heap: Global, words: &[&str]) -> Result<Entry, Fault>
    ensures { IfOk result (λ e. Means (map (λ w. w.now) words.now) e.call × (e.reply ≡ OutOfTurn)) }
{
    Ok(Entry {
        call: call(heap, words)?,
        reply: Reply::OutOfTurn,
    })
}

impl Side {
    fn new(heap: Global) -> Side {
        Side {
            layout: None,
            calls: Vec::new(heap),
        }
    }

    // Chooses the layout, once.
    fn set_up(&mut self, heap: Global, layout: Layout) -> Result<(), Fault> {
        if self.layout.is_some() {
            return Err(Fault::Line("this screen is set out already"));
        }
        // whether a device can be set out so
        layout.set_out(heap)?;
        self.layout = Some(layout);
        Ok(())
    }

    // What the call at this place was answered.
    fn answer_at(&self, heap: Global, at: usize) -> Result<String, AllocError> {
        match self.calls.get(at) {
            Some(entry) => answer(heap, &entry.call, entry.reply),
            None => Ok(String::new(heap)),
        }
    }
}

impl Script {
    pub fn new(heap: Global) -> Script {
        Script {
            one: Side::new(heap),
            two: Side::new(heap),
            cipher: None,
            lines: Vec::new(heap),
        }
    }

    // Takes one line of the script. As in the other programs, a few lines around its own commands.
    pub fn take(&mut self, heap: Global, line: &[u8]) -> Result<(), AllocError> {
        if let Err(fault) = self.try_take(heap, line) {
            let answer = fault.answer(heap)?;
            self.lines.push(Line::Answered(answer))?;
        }
        Ok(())
    }

    fn try_take(&mut self, heap: Global, line: &[u8]) -> Result<(), Fault> {
        let words = words_of(heap, line)?;
        self.obey(heap, words.as_slice())
    }

    fn obey(&mut self, heap: Global, words: &[&str]) -> Result<(), Fault> {
        match words {
            [] => Ok(()),
            ["screen", which, device @ ..] => self.set_up(heap, which, device),
            ["cipher", name] => self.choose(heap, name),
            ["1", call @ ..] => self.add_call(heap, Which::One, words, call),
            ["2", call @ ..] => self.add_call(heap, Which::Two, words, call),
            _ => Err(Fault::Line("not a command")),
        }
    }

    // a match, here and below, since the screen is known only when a line is read
    fn side(&self, which: Which) -> &Side {
        match which {
            Which::One => &self.one,
            Which::Two => &self.two,
        }
    }

    // apart from `side`, since the language has one function for each kind of loan
    fn side_mut(&mut self, which: Which) -> &mut Side {
        match which {
            Which::One => &mut self.one,
            Which::Two => &mut self.two,
        }
    }

    // Adds a call to the list of a screen.
    fn add_call(
        &mut self,
        heap: Global,
        on: Which,
        words: &[&str],
        call: &[&str],
    ) -> Result<(), Fault> {
        let called = entry(heap, call)?;
        let text = words.join(heap, " ")?;
        let at = self.side(on).calls.len();
        // the line first, so that no call is run that has no line to answer in
        self.lines.push(Line::Called { on, text, at })?;
        self.side_mut(on).calls.push(called)?;
        Ok(())
    }

    // Answers the line that was just taken by `ok 0`.
    fn accept(&mut self, heap: Global) -> Result<(), Fault> {
        let answer = String::from_str(heap, "ok 0")?;
        self.lines.push(Line::Answered(answer))?;
        Ok(())
    }

    // Whether a call was taken already.
    fn has_calls(&self) -> bool {
        !self.one.calls.is_empty() || !self.two.calls.is_empty()
    }

    // Sets out a screen, once and before the first call.
    fn set_up(&mut self, heap: Global, which: &str, device: &[&str]) -> Result<(), Fault> {
        let layout = Layout::parse(device, "not a device")?;
        if self.has_calls() {
            return Err(Fault::Line("the screens are set out before the first call"));
        }
        match which {
            "1" => self.one.set_up(heap, layout)?,
            "2" => self.two.set_up(heap, layout)?,
            _ => return Err(Fault::Line("not a screen")),
        }
        self.accept(heap)
    }

    // Chooses the cipher, once and before the first call.
    fn choose(&mut self, heap: Global, name: &str) -> Result<(), Fault> {
        let kind = name.parse()?;
        if self.has_calls() || self.cipher.is_some() {
            return Err(Fault::Line("the cipher is chosen once and before the first call"));
        }
        self.cipher = Some(kind);
        self.accept(heap)
    }

    // Sets out both devices, runs both lists, and compares the slots.
    fn play(&mut self, heap: Global) -> Result<Vec<String>, Fault> {
        let Some(one) = self.one.layout else {
            return Err(Fault::Line("screen 1 is not set out"));
        };
        let Some(two) = self.two.layout else {
            return Err(Fault::Line("screen 2 is not set out"));
        };
        let Some(kind) = self.cipher else {
            return Err(Fault::Line("no cipher is chosen"));
        };
        let mut first = one.set_out(heap)?;
        let mut second = two.set_out(heap)?;
        let one = Device::attach(first.as_mut_slice(), one);
        let two = Device::attach(second.as_mut_slice(), two);
        // two calls, as no closure can be generic over the cipher
        match kind {
            CipherKind::Aes128 => Ok(self.run_both::<Aes128, Device, Device>(heap, one, two)?),
            CipherKind::Speck128 => Ok(self.run_both::<Speck128, Device, Device>(heap, one, two)?),
        }
    }

    // Runs both lists on two screens over the devices, and compares the slots. Generic, as there is no proof of a
    // function that takes a `Device` by value.
    fn run_both<C: BlockCipher + Drop, D: SlotDevice + Drop, F: SlotDevice + Drop>(
        &mut self,
        heap: Global,
        one: D,
        two: F,
    ) -> Result<Vec<String>, AllocError> {
        let first = self.one.calls.as_mut_slice();
        let second = self.two.calls.as_mut_slice();
        let (a, b) = run_two::<C, D, C, F>(one, two, first, second);
        compare(heap, &mut shut(a), &mut shut(b))
    }

    // What the script is answered: the table of the slots, or where it can't be run, the line that says why.
    fn outcome(&mut self, heap: Global) -> Result<Result<Vec<String>, String>, AllocError> {
        match self.play(heap) {
            Ok(table) => Ok(Ok(table)),
            Err(fault) => Ok(Err(fault.answer(heap)?)),
        }
    }

    // Runs both lists, and gives the answer to each line and then the table of the slots.
    pub fn run(&mut self, heap: Global) -> Result<Vec<String>, AllocError> {
        let outcome = self.outcome(heap)?;
        let mut lines = Vec::new(heap);
        for line in self.lines.iter() {
            lines.push(self.answer_to(heap, line, &outcome)?)?;
        }
        // a match, since a proof doesn't cover `if let` here
        match outcome {
            Ok(table) => {
                for line in table {
                    lines.push(line)?;
                }
            }
            Err(_why) => {}
        }
        Ok(lines)
    }

    // The answer to one line of the script.
    fn answer_to(
        &self,
        heap: Global,
        line: &Line,
        outcome: &Result<Vec<String>, String>,
    ) -> Result<String, AllocError> {
        match line {
            Line::Answered(text) => text.clone(),
            Line::Called { on, text, at } => match outcome {
                Err(why) => why.clone(),
                Ok(_) => {
                    let answered = self.side(*on).answer_at(heap, *at)?;
                    format!(in heap; "{text} : {answered}")
                }
            },
        }
    }
}

// The device of a screen, whether a board is open over it or not.
fn shut<C: BlockCipher + Drop, D: SlotDevice>(screen: Screen<C, D>) -> D
    ensures { result ≡ behind screen }
{
    match screen {
        Screen::Shut(device) => device,
        Screen::Open(board) => board.shut(),
    }
}
