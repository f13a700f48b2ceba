ghost use Rattle.text.specs.Kinds.{ReadsAs};

use crate::fault::Fault;
use std::str::FromStr;

// The kinds of cipher.
#[derive(Clone, Copy, PartialEq, Eq, Hash, Debug)]
pub enum CipherKind {
    Aes128,
    Speck128,
}

// Reads the name of a cipher in a command.
impl FromStr for CipherKind {
    type Err = Fault;

    ghost from_str_gives = { ReadsAs };

    fn from_str(word: &str) -> Result<CipherKind, Fault> {
        match word {
            "aes128" => Ok(CipherKind::Aes128),
            "speck128" => Ok(CipherKind::Speck128),
            _ => Err(Fault::Line("not a cipher")),
        }
    }
}
