// AES with keys of sixteen bytes, as FIPS 197 defines it.
ghost use Rattle.std.specs.Prelude.{◌≡◌, length, take};
ghost use Rattle.base.specs.Bytes.{AllBytes};
ghost use Rattle.ciphers.specs.AesSchedule.{key_expansion};
ghost use Rattle.ciphers.specs.Aes.{forward, back, AesLaws};
ghost use Rattle.ciphers.specs.AesRounds.{forward_undone, back_undone, forward_block, back_block};
ghost use Rattle.std.proofs.Common.{rules, arith};

use crate::cipher::BlockCipher;
use base::Refusal;

mod field;
mod rounds;
mod schedule;
mod steps;
mod tables;

use rounds::{decrypt_block, encrypt_block};
use schedule::expand;

// A cipher holds its expanded key, whose first sixteen bytes are the key.
#[derive(Drop)]
pub struct Aes128 {
    schedule: [u8; 176],
    ghost long: { length schedule ≡ 176 },
    ghost fit: { AllBytes (take 16 schedule) },
    ghost made: { schedule ≡ key_expansion 4 (take 16 schedule) },
}

impl BlockCipher for Aes128 {
    const KEY_LEN: usize = 16;

    ghost KEY_LEN = { 16 };

    ghost key_length = { 16 };

    ghost forward = { forward 4 };

    ghost back = { back 4 };

    ghost key_of = { λ c. take 16 c.schedule };

    ghost stated = { first_of (Prim.search rules, Prim.grind (arith, Self.row.coded.inj)) };

    ghost keyed = { first_of (Prim.search rules, Prim.grind (arith, Self.row.coded.inj)) };

    ghost undone = { λ k b h bl. forward_undone 4 k h.fit b bl };

    ghost redone = { λ k b h bl. back_undone 4 k h.fit b bl };

    ghost ahead = { λ k b h bl. forward_block 4 k h.fit b bl };

    ghost behind = { λ k b h bl. back_block 4 k h.fit b bl };

    fn stated_key_len() -> usize
        ensures value { result ≡ 16 }
        ensures constant { result ≡ ⟦<Self as BlockCipher>⟧.KEY_LEN }
    {
        Self::KEY_LEN
    }

    fn new(key: &[u8]) -> Result<Self, Refusal> {
        if key.len() != Self::KEY_LEN {
            return Err(Refusal::WrongKeyLength);
        }
        let mut schedule = [0u8; 176];
        expand(key, &mut schedule);
        Ok(Aes128 { schedule })
    }

    fn encrypt(&self, block: &mut [u8]) {
        let turned = encrypt_block(&self.schedule, read_block(block));
        block.copy_from_slice(&turned);
    }

    fn decrypt(&self, block: &mut [u8]) {
        let turned = decrypt_block(&self.schedule, read_block(block));
        block.copy_from_slice(&turned);
    }
}

// A block as an array, from the slice that the trait's calls take.
fn read_block(block: &[u8]) -> [u8; 16]
    requires { length block.now ≡ 16 }
    ensures { result ≡ block.now }
{
    *block.as_array().unwrap()
}

// The laws that AES rests on, of the byte field, of the tables and of the mixing step; its answer says nothing more.
pub fn aes_laws() -> usize
    ensures { (result ≡ 0) × (AesLaws) }
{
    0
}
