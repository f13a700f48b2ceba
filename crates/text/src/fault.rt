ghost use Rattle.std.specs.Prelude.{◌≡◌, IfOk, Some, string_bytes};
ghost use Rattle.text.specs.Faults.{answer_to, text_of};
ghost use Rattle.text.specs.declared.fault.Fault.TheVariants.{Declined, Memory};

use base::Refusal;
use std::alloc::{AllocError, AllocFailed, Global};
use std::error::Error;
use std::fmt;

// Why a command got no answer of its own.
#[derive(Debug, Drop)]
pub enum Fault {
    // the line is no command; what is wrong with it, in words
    Line(&'static str),
    Declined(Refusal),
    Memory,
}

impl Fault {
    // The line that is answered, unless memory has run out.
    pub fn answer(self, heap: Global) -> Result<String, AllocError>
        ensures { IfOk result (λ line. answer_to self ≡ Some (string_bytes line)) }
    {
        match self {
            Fault::Memory => Err(AllocError),
            fault => fault.to_string(heap),
        }
    }
}

impl fmt::Display for Fault {
    ghost output = { λ fault. Some (text_of fault) };

    fn fmt<W: fmt::Write>(&self, f: &mut fmt::Formatter<W>) -> fmt::Result {
        match self {
            Fault::Line(wrong) => write!(f, "error {wrong}"),
            Fault::Declined(why) => write!(f, "declined {} {why}", why.number()),
            Fault::Memory => write!(f, "out of memory"),
        }
    }
}

impl Error for Fault {}

impl From<Refusal> for Fault {
    ghost from_gives = { λ why r. r ≡ Declined why };

    fn from(why: Refusal) -> Fault {
        Fault::Declined(why)
    }
}

impl From<AllocError> for Fault {
    ghost from_gives = { λ _ r. r ≡ Memory };

    fn from(_e: AllocError) -> Fault {
        Fault::Memory
    }
}

impl<T: Drop> From<AllocFailed<T>> for Fault {
    ghost from_gives = { λ _ r. r ≡ Memory };

    fn from(_e: AllocFailed<T>) -> Fault {
        Fault::Memory
    }
}
