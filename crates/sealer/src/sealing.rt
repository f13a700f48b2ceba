// The commands that seal and open a message.
ghost use Rattle.std.specs.Prelude.{◌≡◌, map, Ok, Err, MatchResult};
ghost use Rattle.text.specs.Faults.{AtFaultOrFull};
ghost use Rattle.sealer.specs.declared.sealing.Sealing.{Sealing};
ghost use Rattle.sealer.specs.Sealing.{Reads, DeclinedOrFull, sealed, opened, sealed_with_proof, opened_with_proof};

use crate::kinds::under;
use base::Refusal;
use ciphers::{Aes128, Speck128};
use mode::{open, open_with_proof, seal, seal_with_proof};
use std::alloc::Global;
use text::{CipherKind, Fault, decode};

// how many bytes a message sealed with proof has to spare
const SPARE: usize = 16;

// A message to be sealed or opened, and under what.
#[derive(Drop)]
pub struct Sealing {
    pub kind: CipherKind,
    pub bundle: Vec<u8>,
    pub nonce: Vec<u8>,
    pub ad: Vec<u8>,
    pub message: Vec<u8>,
}

// Four steps of one shape, each with a contract of its own.
impl Sealing {
    // Reads the words of a command after its name. No `TryFrom`, since it takes memory.
    pub fn read(heap: Global, words: &[&str]) -> Result<Sealing, Fault>
        ensures { MatchResult result (Reads (map (λ w. w.now) words.now)) (λ fault. AtFaultOrFull fault ((s : Sealing) → Reads (map (λ w. w.now) words.now) s → ⊥)) }
    {
        let [cipher, bundle, nonce, ad, message] = words else {
            return Err(Fault::Line("not the words of this command"));
        };
        Ok(Sealing {
            kind: cipher.parse()?,
            bundle: decode(heap, bundle)?,
            nonce: decode(heap, nonce)?,
            ad: decode(heap, ad)?,
            message: decode(heap, message)?,
        })
    }

    // The message sealed.
    pub fn seal(mut self) -> Result<Vec<u8>, Refusal>
        ensures { MatchResult result (λ m. sealed self ≡ Ok m.items) (λ why. sealed self ≡ Err why) }
    {
        under!(
            self.kind,
            seal(&self.bundle, &self.nonce, &self.ad, &mut self.message)
        )?;
        Ok(self.message)
    }

    // The message opened.
    pub fn open(mut self) -> Result<Vec<u8>, Refusal>
        ensures { MatchResult result (λ m. opened self ≡ Ok m.items) (λ why. opened self ≡ Err why) }
    {
        under!(
            self.kind,
            open(&self.bundle, &self.nonce, &self.ad, &mut self.message)
        )?;
        Ok(self.message)
    }

    // The message sealed with spare bytes behind it.
    pub fn seal_with_proof(mut self) -> Result<Vec<u8>, Fault>
        ensures { MatchResult result (λ m. sealed_with_proof self ≡ Ok m.items) (λ fault. DeclinedOrFull fault (sealed_with_proof self)) }
    {
        self.message.extend_from_slice(&[0; SPARE])?;
        under!(
            self.kind,
            seal_with_proof(&self.bundle, &self.nonce, &self.ad, &mut self.message)
        )?;
        Ok(self.message)
    }

    // The message opened, without its spare bytes.
    pub fn open_with_proof(mut self) -> Result<Vec<u8>, Refusal>
        ensures { MatchResult result (λ m. opened_with_proof self ≡ Ok m.items) (λ why. opened_with_proof self ≡ Err why) }
    {
        let len = under!(
            self.kind,
            open_with_proof(&self.bundle, &self.nonce, &self.ad, &mut self.message)
        )?;
        self.message.truncate(len);
        Ok(self.message)
    }
}
