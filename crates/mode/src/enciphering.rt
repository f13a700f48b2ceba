// Enciphering a message in place, block by block, and its undoing.
// The functions that need a whole block ask for it: a struct round the `&mut` would need a clause in each of them too, that
// it still holds the same `&mut`.
ghost use Rattle.std.specs.Prelude.{◌≡◌, ℕ, ◌≤◌, List, length};
ghost use Rattle.base.specs.Bytes.{Block};
ghost use Rattle.base.specs.Blocks.{block_at, last_index, with_block};
ghost use Rattle.mode.specs.Enciphering.{enciphered, deciphered, all_through, tail_mixed};

use base::xor_front;
use ciphers::BlockCipher;

// A way to turn blocks.
trait Turn {
    // what a block is turned into
    ghost turned: { Self → List ℕ → List ℕ };

    // Turns a block where it lies, a slice as the cipher's calls ask.
    fn turn(&self, block: &mut [u8])
        requires { length block.old ≡ 16 }
        ensures { block.new ≡ turned self.now block.old };

    // a block is turned into a block
    ghost keeps: { (t : Self) (b : List ℕ) → Block b → Block (turned t b) };
}

// A cipher's way forward; the way back is a type of its own, since it is another equation.
#[derive(Drop)]
struct Forward<'a, C>(&'a C);

impl<C: BlockCipher> Turn for Forward<'_, C> {
    ghost turned = { λ t. C.forward (C.key_of t.0.now) };

    ghost keeps = { λ t b h. C.ahead (C.key_of t.0.now) b (C.keyed t.0.now) h };

    fn turn(&self, block: &mut [u8]) {
        self.0.encrypt(block);
    }
}

// A cipher's way back.
#[derive(Drop)]
struct Back<'a, C>(&'a C);

impl<C: BlockCipher> Turn for Back<'_, C> {
    ghost turned = { λ t. C.back (C.key_of t.0.now) };

    ghost keeps = { λ t b h. C.behind (C.key_of t.0.now) b (C.keyed t.0.now) h };

    fn turn(&self, block: &mut [u8]) {
        self.0.decrypt(block);
    }
}

// Turns every whole block.
fn all_blocks<T: Turn>(way: &T, message: &mut [u8])
    ensures { message.new ≡ all_through (T.turned way.now) message.old }
{
    // by place: what a loop over `chunks_exact_mut` leaves in the blocks is not known
    for i in 0..message.len() / 16 {
        way.turn(&mut message[i * 16..i * 16 + 16]);
    }
}

// Turns the last whole block.
fn last_block<T: Turn>(way: &T, message: &mut [u8])
    requires { 16 ≤ length message.old }
    ensures { message.new ≡ with_block (last_index message.old) (T.turned way.now (block_at (last_index message.old) message.old)) message.old }
{
    let last = message.len() / 16 - 1;
    way.turn(&mut message[last * 16..last * 16 + 16]);
}

// Adds the last whole block onto the tail.
fn mix_tail(message: &mut [u8])
    requires { 16 ≤ length message.old }
    ensures { message.new ≡ tail_mixed message.old }
{
    let whole = message.len() / 16 * 16;
    let (blocks, tail) = message.split_at_mut(whole);
    xor_front(tail, &blocks[whole - 16..]);
}

// Enciphers the message.
pub fn encipher<C: BlockCipher>(cipher: &C, message: &mut [u8])
    requires { 16 ≤ length message.old }
    ensures { message.new ≡ enciphered (C.BlockCipher.forward (C.BlockCipher.key_of cipher.now)) message.old }
{
    let forward = Forward(cipher);
    all_blocks(&forward, message);
    if message.len() % 16 != 0 {
        mix_tail(message);
        last_block(&forward, message);
    }
}

// Undoes an enciphering.
pub fn decipher<C: BlockCipher>(cipher: &C, message: &mut [u8])
    requires { 16 ≤ length message.old }
    ensures { message.new ≡ deciphered (C.BlockCipher.back (C.BlockCipher.key_of cipher.now)) message.old }
{
    let back = Back(cipher);
    if message.len() % 16 != 0 {
        last_block(&back, message);
        mix_tail(message);
    }
    all_blocks(&back, message);
}
