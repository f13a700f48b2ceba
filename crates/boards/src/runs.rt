// Lists of calls on screens.
ghost use Rattle.std.specs.Prelude.{◌≡◌, ℕ, List};
ghost use Rattle.boards.specs.Modes.{mode_kind, TurnAlike};
ghost use Rattle.boards.specs.Screens.{behind, Stepped};
ghost use Rattle.boards.specs.Promise.{Ran, Shared, Agreement};

use crate::acts::act;
use crate::board::Board;
use crate::calls::{Call, Entry, Reply};
use crate::ready::Ready;
use ciphers::BlockCipher;
use devices::SlotDevice;
use mode::mode_laws;

// A device, and the board open over it, or none. No Result, since neither is an error.
pub enum Screen<C: BlockCipher, D> {
    Shut(D),
    Open(Board<C, D>),
}

impl<C: BlockCipher + Drop, D: SlotDevice> Screen<C, D> {
    // One call: while no board is open only an opening is in turn, and while one is open an opening is not. An accepted call that names
    // no number answers 0.
    fn step(self, call: &mut Call) -> (Self, Reply)
        ensures { Stepped C.BlockCipher D.SlotDevice self call.old call.new result.0 result.1 }
    {
        // brings the laws of the mode, by which opened rows are the plain board's
        mode_laws();
        match self {
            Screen::Shut(device) => match call {
                Call::Open { bundle, label } => {
                    match Ready::prepare(bundle.as_slice(), label.as_slice()) {
                        Ok(ready) => (
                            Screen::Open(Board::open(ready, device)),
                            Reply::Answered(Ok(0)),
                        ),
                        Err(why) => (Screen::Shut(device), Reply::Answered(Err(why))),
                    }
                }
                _ => (Screen::Shut(device), Reply::OutOfTurn),
            },
            Screen::Open(mut board) => match call {
                Call::Shut => (Screen::Shut(board.shut()), Reply::Answered(Ok(0))),
                _ => {
                    let reply = act(&mut board, call);
                    (Screen::Open(board), reply)
                }
            },
        }
    }
}

// Runs a list of calls on a screen that starts shut; each entry then has its answer.
pub fn run<C: BlockCipher + Drop, D: SlotDevice>(device: D, list: &mut [Entry]) -> Screen<C, D>
    ensures { Ran C.BlockCipher (mode_kind C.BlockCipher) D.SlotDevice device list.old list.new result }
{
    let mut screen = Screen::Shut(device);
    for e in list.iter_mut() {
        (screen, e.reply) = screen.step(&mut e.call);
    }
    screen
}

// Runs two lists on two screens.
pub fn run_two<C: BlockCipher + Drop, D: SlotDevice, E: BlockCipher + Drop, F: SlotDevice>(
    one: D,
    two: F,
    first: &mut [Entry],
    second: &mut [Entry],
) -> (Screen<C, D>, Screen<E, F>)
    ensures first { Ran C.BlockCipher (mode_kind C.BlockCipher) D.SlotDevice one first.old first.new result.0 }
    ensures second { Ran E.BlockCipher (mode_kind E.BlockCipher) F.SlotDevice two second.old second.new result.1 }
    ensures agreement { (bundle label : List ℕ) → Shared D.SlotDevice F.SlotDevice one two first.new second.new bundle label → TurnAlike C.BlockCipher E.BlockCipher bundle → Agreement (mode_kind C.BlockCipher) (mode_kind E.BlockCipher) D.SlotDevice F.SlotDevice one two first.old first.new second.old second.new result.0 result.1 bundle label }
{
    mode_laws();
    let a = run(one, first);
    let b = run(two, second);
    (a, b)
}

// Runs a list on a screen whose device is itself a board, as boards pile.
pub fn run_on_board<C: BlockCipher + Drop, B: BlockCipher, D: SlotDevice>(
    lower: Board<B, D>,
    list: &mut [Entry],
) -> Screen<C, Board<B, D>>
    ensures kept { ((behind result).ready ≡ lower.ready) × (D.SlotDevice.fixed (behind result).device ≡ D.SlotDevice.fixed lower.device) }
    ensures ran { Ran C.BlockCipher (mode_kind C.BlockCipher) ⟦<Board<B, D> as SlotDevice>⟧ lower list.old list.new result }
{
    run(lower, list)
}
