// What the commands ask of a cipher, for any cipher.
ghost use Rattle.std.specs.Prelude.{◌≡◌, length, Ok};
ghost use Rattle.base.specs.Refusals.{decided};
ghost use Rattle.mode.specs.Calls.{if_accepted};
ghost use Rattle.ciphers.specs.Keys.{key_checks};
ghost use Rattle.sealer.specs.Work.{turned};

use base::Refusal;
use ciphers::BlockCipher;

// The two ways through a cipher.
#[derive(Clone, Copy)]
pub enum Way {
    Forward,
    Back,
}

// Turns a block under a key.
pub fn turn<C: BlockCipher + Drop>(
    way: Way,
    key: &[u8],
    block: &mut [u8; 16],
) -> Result<(), Refusal>
    ensures answer { result ≡ decided (key_checks C.BlockCipher.key_length (length key.now)) (Ok tt) }
    ensures after { block.new ≡ if_accepted result (turned way C.BlockCipher.forward C.BlockCipher.back key.now block.old) block.old }
{
    let cipher = C::new(key)?;
    // a match, since a closure in its place would have to be generic over the cipher
    match way {
        Way::Forward => cipher.encrypt(block),
        Way::Back => cipher.decrypt(block),
    }
    Ok(())
}
