// Sealing and opening in place, under tau and beta one. Two functions, since each of their three steps differs; and each
// asks for a whole block, as those of hashing and enciphering do.
ghost use Rattle.std.specs.Prelude.{◌≡◌, ◌≤◌, length};
ghost use Rattle.field.specs.Field.{times_z};
ghost use Rattle.mode.specs.Sealing.{sealed_with, opened_with};

use crate::enciphering::{decipher, encipher};
use crate::hashing::{hash_with, unhash_with};
use ciphers::BlockCipher;
use field::{Factor, double};

// Beta two: z times beta one.
fn beta_two(one: u128) -> u128
    ensures { result ≡ times_z one }
{
    double(one)
}

// Hashes with beta one, enciphers, and undoes a hashing with beta two.
pub fn seal_with<C: BlockCipher>(blk: &C, tau: u128, one: u128, message: &mut [u8])
    requires { 16 ≤ length message.old }
    ensures { message.new ≡ sealed_with (C.BlockCipher.forward (C.BlockCipher.key_of blk.now)) tau one (times_z one) message.old }
{
    let tau = Factor::new(tau);
    let two = beta_two(one);
    hash_with(message, &tau, one);
    encipher(blk, message);
    unhash_with(message, &tau, two);
}

// Hashes with beta two, undoes the enciphering, and undoes a hashing with beta one.
pub fn open_with<C: BlockCipher>(blk: &C, tau: u128, one: u128, message: &mut [u8])
    requires { 16 ≤ length message.old }
    ensures { message.new ≡ opened_with (C.BlockCipher.back (C.BlockCipher.key_of blk.now)) tau one (times_z one) message.old }
{
    let tau = Factor::new(tau);
    let two = beta_two(one);
    hash_with(message, &tau, two);
    decipher(blk, message);
    unhash_with(message, &tau, one);
}
