// Sealing and opening with proof: the message ends in sixteen spare bytes, zero before sealing and after opening.
ghost use Rattle.std.specs.Prelude.{◌≡◌, ◌-◌, ◌++◌, length, Ok, OnOk};
ghost use Rattle.base.specs.Refusals.{decided};
ghost use Rattle.mode.specs.Bundles.{sealed_under, opened_under};
ghost use Rattle.mode.specs.Keys.{bundle_of};
ghost use Rattle.mode.specs.Calls.{length_checks, proof_checks, spare_zeroed, if_accepted, if_genuine};

use crate::keys::Keys;
use crate::limits::{BLOCK, Binding};
use base::{Refusal, all_zero, wipe};
use ciphers::BlockCipher;

impl<C: BlockCipher> Keys<C> {
    // Seals a message that ends in sixteen spare bytes, which are made zero first.
    pub fn seal_with_proof(
        &self,
        nonce: &[u8],
        ad: &[u8],
        message: &mut [u8],
    ) -> Result<usize, Refusal>
        ensures answer { result ≡ decided (length_checks (length nonce.now) (length ad.now) (length message.old)) (Ok 0) }
        ensures after { message.new ≡ if_accepted result (sealed_under C.BlockCipher.forward C.BlockCipher.key_length (bundle_of C.BlockCipher.key_of self.now) nonce.now ad.now (spare_zeroed message.old)) message.old }
        ensures back { OnOk result (opened_under C.BlockCipher.forward C.BlockCipher.back C.BlockCipher.key_length (bundle_of C.BlockCipher.key_of self.now) nonce.now ad.now message.new ≡ spare_zeroed message.old) }
    {
        let bound = Binding::new(nonce, ad, message.len())?;
        let spare = message.len() - BLOCK;
        wipe(&mut message[spare..]);
        self.seal_bound(&bound, message);
        Ok(0)
    }

    // Opens a message sealed with proof and answers its length without the spare bytes, or NotGenuine unless these are
    // zero; then the whole message is zero.
    pub fn open_with_proof(
        &self,
        nonce: &[u8],
        ad: &[u8],
        message: &mut [u8],
    ) -> Result<usize, Refusal>
        ensures answer { result ≡ decided (length_checks (length nonce.now) (length ad.now) (length message.old) ++ proof_checks (opened_under C.BlockCipher.forward C.BlockCipher.back C.BlockCipher.key_length (bundle_of C.BlockCipher.key_of self.now) nonce.now ad.now message.old)) (Ok (length message.old - 16)) }
        ensures after { message.new ≡ if_genuine result (opened_under C.BlockCipher.forward C.BlockCipher.back C.BlockCipher.key_length (bundle_of C.BlockCipher.key_of self.now) nonce.now ad.now message.old) message.old }
        ensures back { OnOk result (sealed_under C.BlockCipher.forward C.BlockCipher.key_length (bundle_of C.BlockCipher.key_of self.now) nonce.now ad.now message.new ≡ message.old) }
    {
        let bound = Binding::new(nonce, ad, message.len())?;
        self.open_bound(&bound, message);
        let length = message.len() - BLOCK;
        if all_zero(&message[length..]) {
            Ok(length)
        } else {
            wipe(message);
            Err(Refusal::NotGenuine)
        }
    }
}
