// The polynomial hash, and hashing a message in place with its undoing.
// The functions that need a whole block ask for it: a struct round the `&mut` would need a clause in each of them too, that
// it still holds the same `&mut`.
ghost use Rattle.std.specs.Prelude.{◌≡◌, ◌≤◌, ◌++◌, length, Ok};
ghost use Rattle.base.specs.Refusals.{decided};
ghost use Rattle.base.specs.Numbers.{number, bytes};
ghost use Rattle.base.specs.Blocks.{whole_blocks, tail_of, blocks_joined};
ghost use Rattle.mode.specs.Hash.{hash_of, spread, hashed, unhashed};
ghost use Rattle.mode.specs.Calls.{message_checks};

use crate::blocks::{element_at, ended, put_element};
use crate::limits::check_message;
use base::Refusal;
use field::{Factor, double, element};

// The hash, by Horner's rule: the blocks before the last one, then the tail with a byte 01 and zeros behind it, and the last
// block as it is.
pub fn poly_hash(message: &[u8], tau: &Factor) -> u128
    requires { 16 ≤ length message.now }
    ensures { result ≡ hash_of tau.now message.now }
{
    let (blocks, tail) = message.as_chunks::<16>();
    let last = blocks.len() - 1;
    let mut sum = 0u128;
    for block in &blocks[..last] {
        sum = tau.times(sum ^ element(block));
    }
    tau.times(sum ^ element(&ended(tail, 0x01))) ^ element(&blocks[last])
}

// Adds r and the next multiple of beta to each block.
fn spread_over(blocks: &mut [u8], r: u128, beta: u128)
    ensures { blocks.new ≡ blocks_joined (spread r beta blocks.old) (whole_blocks blocks.old) ++ tail_of blocks.old }
{
    let mut multiple = beta;
    // by place: what a loop over `chunks_exact_mut` leaves in the blocks is not known
    for i in 0..blocks.len() / 16 {
        multiple = double(multiple);
        let x = element_at(blocks, i) ^ (r ^ multiple);
        put_element(blocks, i, x);
    }
}

// Hashes the message with beta.
pub fn hash_with(message: &mut [u8], tau: &Factor, beta: u128)
    requires { 16 ≤ length message.old }
    ensures { message.new ≡ hashed tau.now beta message.old }
{
    let last = message.len() / 16 - 1;
    let r = poly_hash(message, tau);
    spread_over(&mut message[..last * 16], r, beta);
    put_element(message, last, r ^ beta);
}

// Undoes a hashing with beta.
pub fn unhash_with(message: &mut [u8], tau: &Factor, beta: u128)
    requires { 16 ≤ length message.old }
    ensures { message.new ≡ unhashed tau.now beta message.old }
{
    let last = message.len() / 16 - 1;
    let r = element_at(message, last) ^ beta;
    spread_over(&mut message[..last * 16], r, beta);
    put_element(message, last, 0);
    let rest = poly_hash(message, tau);
    put_element(message, last, r ^ rest);
}

// The hash of a message under tau.
pub fn hash(tau: &[u8; 16], message: &[u8]) -> Result<[u8; 16], Refusal>
    ensures { result ≡ decided (message_checks (length message.now)) (Ok (bytes 16 (hash_of (number tau.now) message.now))) }
{
    check_message(message.len())?;
    Ok(poly_hash(message, &Factor::new(element(tau))).to_le_bytes())
}
