// The rounds, as many as the schedule has keys for. Forward and back are functions apart, as their steps come in another order.
ghost use Rattle.std.specs.Prelude.{◌≡◌, ◌-◌, ◌/◌, ◌≤◌, length};
ghost use Rattle.ciphers.specs.AesSteps.{sub_bytes, shift_rows, add_round_key, inv_sub_bytes, inv_shift_rows};
ghost use Rattle.ciphers.specs.Aes.{round, inv_round, cipher, inv_cipher};

use super::steps::{inv_mix_columns, inv_shift_sub, mix_columns, sub_shift};
use base::xor_front;

// A block with a round key added.
fn with_key(mut block: [u8; 16], key: &[u8; 16]) -> [u8; 16]
    ensures { result ≡ add_round_key block key.now }
{
    xor_front(&mut block, key);
    block
}

// A round with its key.
fn one_round(block: [u8; 16], key: &[u8; 16]) -> [u8; 16]
    ensures { result ≡ round block key.now }
{
    with_key(mix_columns(sub_shift(block)), key)
}

// The last round mixes no columns.
fn last_round(block: [u8; 16], key: &[u8; 16]) -> [u8; 16]
    ensures { result ≡ add_round_key (shift_rows (sub_bytes block)) key.now }
{
    with_key(sub_shift(block), key)
}

// A round undone.
fn inv_round(block: [u8; 16], key: &[u8; 16]) -> [u8; 16]
    ensures { result ≡ inv_round block key.now }
{
    inv_shift_sub(inv_mix_columns(with_key(block, key)))
}

// The last round undone.
fn inv_last_round(block: [u8; 16], key: &[u8; 16]) -> [u8; 16]
    ensures { result ≡ inv_sub_bytes (inv_shift_rows (add_round_key block key.now)) }
{
    inv_shift_sub(with_key(block, key))
}

// A block forward through every round.
pub(super) fn encrypt_block(schedule: &[u8], block: [u8; 16]) -> [u8; 16]
    requires { 32 ≤ length schedule.now }
    ensures { result ≡ cipher (length schedule.now / 16 - 1) schedule.now block }
{
    let (keys, _) = schedule.as_chunks::<16>();
    let last = keys.len() - 1;
    let start = with_key(block, &keys[0]);
    let mixed = keys[1..last].iter().fold(start, one_round);
    last_round(mixed, &keys[last])
}

// A block back through every round.
pub(super) fn decrypt_block(schedule: &[u8], block: [u8; 16]) -> [u8; 16]
    requires { 32 ≤ length schedule.now }
    ensures { result ≡ inv_cipher (length schedule.now / 16 - 1) schedule.now block }
{
    let (keys, _) = schedule.as_chunks::<16>();
    let last = keys.len() - 1;
    let start = inv_last_round(block, &keys[last]);
    let unmixed = keys[1..last].iter().rev().fold(start, inv_round);
    with_key(unmixed, &keys[0])
}
