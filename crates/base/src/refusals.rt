// The refusals, each with its number and its name.
ghost use Rattle.std.specs.Prelude.{◌≡◌, Some};
ghost use Rattle.base.specs.Refusals.{number_of, name_of};

use std::error::Error;
use std::fmt;

// Why a call was declined. A call names its checks in order, and the first that hits decides.
#[derive(Clone, Copy, PartialEq, Eq, Hash, Debug)]
pub enum Refusal {
    // the slot count, the longest row or the cell count is out of range, or the memory is not as long as its layout
    BadDimensions = 1,
    // memory to be attached is not well formed
    MalformedMemory = 2,
    // a key or a key bundle is not as long as the cipher asks
    WrongKeyLength = 3,
    // a nonce, associated data or a label is too long
    ContextTooLong = 4,
    // the device has no slot of this number
    NoSuchSlot = 5,
    // a message or a row is too short or too long
    WrongLength = 6,
    // the slot holds no row
    EmptySlot = 7,
    // the caller's buffer is too short
    BufferTooShort = 8,
    // the row would take more units than the device has left
    NoRoom = 9,
    // the opened message does not end in sixteen zero bytes
    NotGenuine = 10,
}

impl Refusal {
    // The number that the refusal is reported by.
    pub fn number(self) -> usize
        ensures { result ≡ number_of self }
    {
        self as usize
    }

    // The name that the refusal is reported by, spelled out since the contract states each name.
    pub fn name(self) -> &'static str
        ensures { result.now ≡ name_of self }
    {
        match self {
            Refusal::BadDimensions => "BadDimensions",
            Refusal::MalformedMemory => "MalformedMemory",
            Refusal::WrongKeyLength => "WrongKeyLength",
            Refusal::ContextTooLong => "ContextTooLong",
            Refusal::NoSuchSlot => "NoSuchSlot",
            Refusal::WrongLength => "WrongLength",
            Refusal::EmptySlot => "EmptySlot",
            Refusal::BufferTooShort => "BufferTooShort",
            Refusal::NoRoom => "NoRoom",
            Refusal::NotGenuine => "NotGenuine",
        }
    }
}

// Prints the name.
impl fmt::Display for Refusal {
    ghost output = { λ refusal. Some (name_of refusal) };

    fn fmt<W: fmt::Write>(&self, f: &mut fmt::Formatter<W>) -> fmt::Result {
        f.write_str(self.name())
    }
}

impl Error for Refusal {}
