// Keys made from a bundle, and sealing and opening under them. The calls take nonce, associated data and message in the
// order that the definitions and the C header have, and answer a number where they are accepted, 0 where they name none.
ghost use Rattle.std.specs.Prelude.{◌≡◌, length, Ok, OnOk};
ghost use Rattle.base.specs.Refusals.{decided};
ghost use Rattle.mode.specs.Bundles.{sealed_under, opened_under};
ghost use Rattle.mode.specs.Keys.{bundle_of, bundle_answer};
ghost use Rattle.mode.specs.Calls.{bundle_checks, length_checks, if_accepted};

use crate::limits::{BLOCK, Binding};
use crate::mac::beta_one;
use crate::sealing::{open_with, seal_with};
use base::Refusal;
use ciphers::BlockCipher;
use field::element;

// Tau, and the ciphers of the prf key and of the blk key. It has no view of its own as a bundle: that the bundle of any
// keys is as long as the cipher asks, and made of bytes, follows from the fields alone.
#[derive(Drop)]
pub struct Keys<C: BlockCipher> {
    tau: u128,
    prf: C,
    blk: C,
}

impl<C: BlockCipher> Keys<C> {
    // The keys of a bundle, or WrongKeyLength unless it is tau and two keys of the cipher's key length. No `TryFrom`, since bytes
    // don't say that they are a bundle.
    pub fn from_bundle(bundle: &[u8]) -> Result<Keys<C>, Refusal>
    where
        C: Drop,
        ensures { bundle_answer C.BlockCipher.key_of result ≡ decided (bundle_checks C.BlockCipher.key_length (length bundle.now)) (Ok bundle.now) }
    {
        let n = C::stated_key_len();
        let (tau, keys) = bundle
            .split_first_chunk::<BLOCK>()
            .ok_or(Refusal::WrongKeyLength)?;
        if keys.len() % 2 != 0 || keys.len() / 2 != n {
            return Err(Refusal::WrongKeyLength);
        }
        let (prf, blk) = keys.split_at(n);
        let tau = element(tau);
        let prf = C::new(prf)?;
        let blk = C::new(blk)?;
        Ok(Keys { tau, prf, blk })
    }

    // Seals a message of the length that it is bound to. Sealing and opening are apart, here and below, since each states something else.
    pub(crate) fn seal_bound(&self, bound: &Binding<'_>, message: &mut [u8])
        requires { bound.now.message ≡ length message.old }
        ensures after { message.new ≡ sealed_under C.BlockCipher.forward C.BlockCipher.key_length (bundle_of C.BlockCipher.key_of self.now) bound.now.nonce.now bound.now.ad.now message.old }
        ensures back { opened_under C.BlockCipher.forward C.BlockCipher.back C.BlockCipher.key_length (bundle_of C.BlockCipher.key_of self.now) bound.now.nonce.now bound.now.ad.now message.new ≡ message.old }
    {
        let one = beta_one(&self.prf, bound);
        seal_with(&self.blk, self.tau, one, message);
    }

    // Opens a message of the length that it is bound to.
    pub(crate) fn open_bound(&self, bound: &Binding<'_>, message: &mut [u8])
        requires { bound.now.message ≡ length message.old }
        ensures after { message.new ≡ opened_under C.BlockCipher.forward C.BlockCipher.back C.BlockCipher.key_length (bundle_of C.BlockCipher.key_of self.now) bound.now.nonce.now bound.now.ad.now message.old }
        ensures back { sealed_under C.BlockCipher.forward C.BlockCipher.key_length (bundle_of C.BlockCipher.key_of self.now) bound.now.nonce.now bound.now.ad.now message.new ≡ message.old }
    {
        let one = beta_one(&self.prf, bound);
        open_with(&self.blk, self.tau, one, message);
    }

    // Seals a message where it lies, and opening it gives it back.
    pub fn seal(&self, nonce: &[u8], ad: &[u8], message: &mut [u8]) -> Result<usize, Refusal>
        ensures answer { result ≡ decided (length_checks (length nonce.now) (length ad.now) (length message.old)) (Ok 0) }
        ensures after { message.new ≡ if_accepted result (sealed_under C.BlockCipher.forward C.BlockCipher.key_length (bundle_of C.BlockCipher.key_of self.now) nonce.now ad.now message.old) message.old }
        ensures back { OnOk result (opened_under C.BlockCipher.forward C.BlockCipher.back C.BlockCipher.key_length (bundle_of C.BlockCipher.key_of self.now) nonce.now ad.now message.new ≡ message.old) }
    {
        let bound = Binding::new(nonce, ad, message.len())?;
        self.seal_bound(&bound, message);
        Ok(0)
    }

    // Opens a message where it lies, and sealing it gives it back.
    pub fn open(&self, nonce: &[u8], ad: &[u8], message: &mut [u8]) -> Result<usize, Refusal>
        ensures answer { result ≡ decided (length_checks (length nonce.now) (length ad.now) (length message.old)) (Ok 0) }
        ensures after { message.new ≡ if_accepted result (opened_under C.BlockCipher.forward C.BlockCipher.back C.BlockCipher.key_length (bundle_of C.BlockCipher.key_of self.now) nonce.now ad.now message.old) message.old }
        ensures back { OnOk result (sealed_under C.BlockCipher.forward C.BlockCipher.key_length (bundle_of C.BlockCipher.key_of self.now) nonce.now ad.now message.new ≡ message.old) }
    {
        let bound = Binding::new(nonce, ad, message.len())?;
        self.open_bound(&bound, message);
        Ok(0)
    }
}
