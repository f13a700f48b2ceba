// The steps of a round, each from one block of sixteen bytes to another.
ghost use Rattle.std.specs.Prelude.{◌≡◌, ◌*◌, ◌%◌, ◌<◌, map, slice_index};
ghost use Rattle.std.specs.List.{range_with_len};
ghost use Rattle.ciphers.specs.AesSteps.{sub_bytes, shift_rows, row, mixed_by, columnwise, mix_columns, inv_sub_bytes, inv_shift_rows, inv_mix_columns};

use super::field::times;
use super::tables::{INV_SBOX, SBOX};
use std::array;

// The first rows of the matrix of MixColumns and of its inverse.
const MIX: [u8; 4] = [2, 3, 1, 1];

const UNMIX: [u8; 4] = [14, 11, 13, 9];

// The entries of a table for the bytes of a block, where byte i comes from place `step` times i modulo 16.
#[inline(always)]
fn looked_up(table: &[u8; 256], step: usize, block: [u8; 16]) -> [u8; 16]
    requires { step < 16 }
    ensures { result ≡ map (λ i. slice_index table.now (slice_index block (step * i % 16))) (range_with_len 0 16) }
{
    array::from_fn(|i| table[block[step * i % 16] as usize])
}

// SubBytes and ShiftRows. Row r turns left by r places, so byte i comes from place 5 i modulo 16. A call of its own, as on
// the way back: joined with the mixing, the bytes went into a vector register one by one, and a round took a third longer.
#[inline(never)]
pub(super) fn sub_shift(block: [u8; 16]) -> [u8; 16]
    ensures { result ≡ shift_rows (sub_bytes block) }
{
    looked_up(&SBOX, 5, block)
}

// InvShiftRows and InvSubBytes. Row r turns right by r places, so byte i comes from place 13 i modulo 16.
#[inline(never)]
pub(super) fn inv_shift_sub(block: [u8; 16]) -> [u8; 16]
    ensures { result ≡ inv_sub_bytes (inv_shift_rows block) }
{
    looked_up(&INV_SBOX, 13, block)
}

// One row of factors times a column.
#[inline(always)]
fn row(factors: [u8; 4], column: [u8; 4]) -> u8
    ensures { result ≡ row (slice_index factors 0) (slice_index factors 1) (slice_index factors 2) (slice_index factors 3) column }
{
    times(factors[0], column[0])
        ^ times(factors[1], column[1])
        ^ times(factors[2], column[2])
        ^ times(factors[3], column[3])
}

// A column times the matrix with this first row, where each row after it is the one before turned right by one place.
#[inline(always)]
#[tactic(auto, unfolding(crate::specs::AesSteps::mixed_by))]
fn mix_column(factors: [u8; 4], column: [u8; 4]) -> [u8; 4]
    ensures { result ≡ mixed_by factors column }
{
    let [k, l, m, n] = factors;
    [
        row([k, l, m, n], column),
        row([n, k, l, m], column),
        row([m, n, k, l], column),
        row([l, m, n, k], column),
    ]
}

// That matrix times each column of a block. A loop that writes each column in its place: joined from four columns spelled out, a
// block back took twice as long; made byte by byte by a closure, a block ahead did.
#[inline(always)]
fn mix(factors: [u8; 4], block: [u8; 16]) -> [u8; 16]
    ensures { result ≡ columnwise (mixed_by factors) 4 block }
{
    let (columns, _) = block.as_chunks::<4>();
    let mut mixed = [0u8; 16];
    for i in 0..4 {
        mixed[4 * i..4 * i + 4].copy_from_slice(&mix_column(factors, columns[i]));
    }
    mixed
}

// MixColumns: each column mixed.
pub(super) fn mix_columns(block: [u8; 16]) -> [u8; 16]
    ensures { result ≡ mix_columns block }
{
    mix(MIX, block)
}

// InvMixColumns: each column unmixed.
pub(super) fn inv_mix_columns(block: [u8; 16]) -> [u8; 16]
    ensures { result ≡ inv_mix_columns block }
{
    mix(UNMIX, block)
}
