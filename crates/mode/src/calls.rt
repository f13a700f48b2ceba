// Sealing and opening under a bundle, in one call each. Four calls of one shape, since each has a
// contract of its own; the answers are those of `Keys`.
ghost use Rattle.std.specs.Prelude.{◌≡◌, ◌-◌, ◌++◌, length, Ok, OnOk};
ghost use Rattle.base.specs.Refusals.{decided};
ghost use Rattle.mode.specs.Bundles.{sealed_under, opened_under};
ghost use Rattle.mode.specs.Calls.{bundle_checks, length_checks, proof_checks, spare_zeroed, if_accepted, if_genuine};

use crate::keys::Keys;
use base::Refusal;
use ciphers::BlockCipher;

// Seals a message under a bundle, and opening it gives it back.
pub fn seal<C: BlockCipher + Drop>(
    bundle: &[u8],
    nonce: &[u8],
    ad: &[u8],
    message: &mut [u8],
) -> Result<usize, Refusal>
    ensures answer { result ≡ decided (bundle_checks C.BlockCipher.key_length (length bundle.now) ++ length_checks (length nonce.now) (length ad.now) (length message.old)) (Ok 0) }
    ensures after { message.new ≡ if_accepted result (sealed_under C.BlockCipher.forward C.BlockCipher.key_length bundle.now nonce.now ad.now message.old) message.old }
    ensures back { OnOk result (opened_under C.BlockCipher.forward C.BlockCipher.back C.BlockCipher.key_length bundle.now nonce.now ad.now message.new ≡ message.old) }
{
    Keys::<C>::from_bundle(bundle)?.seal(nonce, ad, message)
}

// Opens a message under a bundle, and sealing it gives it back.
pub fn open<C: BlockCipher + Drop>(
    bundle: &[u8],
    nonce: &[u8],
    ad: &[u8],
    message: &mut [u8],
) -> Result<usize, Refusal>
    ensures answer { result ≡ decided (bundle_checks C.BlockCipher.key_length (length bundle.now) ++ length_checks (length nonce.now) (length ad.now) (length message.old)) (Ok 0) }
    ensures after { message.new ≡ if_accepted result (opened_under C.BlockCipher.forward C.BlockCipher.back C.BlockCipher.key_length bundle.now nonce.now ad.now message.old) message.old }
    ensures back { OnOk result (sealed_under C.BlockCipher.forward C.BlockCipher.key_length bundle.now nonce.now ad.now message.new ≡ message.old) }
{
    Keys::<C>::from_bundle(bundle)?.open(nonce, ad, message)
}

// Seals a message that ends in sixteen spare bytes, which are made zero first.
pub fn seal_with_proof<C: BlockCipher + Drop>(
    bundle: &[u8],
    nonce: &[u8],
    ad: &[u8],
    message: &mut [u8],
) -> Result<usize, Refusal>
    ensures answer { result ≡ decided (bundle_checks C.BlockCipher.key_length (length bundle.now) ++ length_checks (length nonce.now) (length ad.now) (length message.old)) (Ok 0) }
    ensures after { message.new ≡ if_accepted result (sealed_under C.BlockCipher.forward C.BlockCipher.key_length bundle.now nonce.now ad.now (spare_zeroed message.old)) message.old }
    ensures back { OnOk result (opened_under C.BlockCipher.forward C.BlockCipher.back C.BlockCipher.key_length bundle.now nonce.now ad.now message.new ≡ spare_zeroed message.old) }
{
    Keys::<C>::from_bundle(bundle)?.seal_with_proof(nonce, ad, message)
}

// Opens a message sealed with proof and answers its length without the spare bytes, or NotGenuine.
pub fn open_with_proof<C: BlockCipher + Drop>(
    bundle: &[u8],
    nonce: &[u8],
    ad: &[u8],
    message: &mut [u8],
) -> Result<usize, Refusal>
    ensures answer { result ≡ decided (bundle_checks C.BlockCipher.key_length (length bundle.now) ++ (length_checks (length nonce.now) (length ad.now) (length message.old) ++ proof_checks (opened_under C.BlockCipher.forward C.BlockCipher.back C.BlockCipher.key_length bundle.now nonce.now ad.now message.old))) (Ok (length message.old - 16)) }
    ensures after { message.new ≡ if_genuine result (opened_under C.BlockCipher.forward C.BlockCipher.back C.BlockCipher.key_length bundle.now nonce.now ad.now message.old) message.old }
    ensures back { OnOk result (sealed_under C.BlockCipher.forward C.BlockCipher.key_length bundle.now nonce.now ad.now message.new ≡ message.old) }
{
    Keys::<C>::from_bundle(bundle)?.open_with_proof(nonce, ad, message)
}
