// Blocks read and written where they lie in a message.
ghost use Rattle.std.specs.Prelude.{◌≡◌, ◌+◌, ◌*◌, ◌<◌, ◌≤◌, length};
ghost use Rattle.base.specs.Numbers.{bytes};
ghost use Rattle.base.specs.Blocks.{with_block, ended_by};
ghost use Rattle.mode.specs.Hash.{element_at};

use field::element;

// The block i as an element of the field.
pub fn element_at(message: &[u8], i: usize) -> u128
    requires { i * 16 + 16 ≤ length message.now }
    ensures { result ≡ element_at i message.now }
{
    let (blocks, _) = message.as_chunks::<16>();
    element(&blocks[i])
}

// Writes an element over the block i.
pub fn put_element(message: &mut [u8], i: usize, x: u128)
    requires { i * 16 + 16 ≤ length message.old }
    ensures { message.new ≡ with_block i (bytes 16 x) message.old }
{
    // as a part: `as_chunks_mut` says nothing of what the message holds afterwards
    message[i * 16..i * 16 + 16].copy_from_slice(&x.to_le_bytes());
}

// A block of a short string, the byte `mark` behind it, and zeros.
pub fn ended(string: &[u8], mark: u8) -> [u8; 16]
    requires { length string.now < 16 }
    ensures { result ≡ ended_by mark string.now }
{
    let n = string.len();
    let mut block = [0u8; 16];
    block[..n].copy_from_slice(string);
    block[n] = mark;
    block
}
