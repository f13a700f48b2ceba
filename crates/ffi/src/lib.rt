#![tactic(auto)]
// The mode and CMAC for programs in C and Rust. Each call answers 0, or the number of a refusal, and stands once for each
// cipher: C has neither Result nor generic functions.
// The header is include/vanhseak.h.
ghost use Rattle.std.specs.Prelude.{◌≡◌};
ghost use Rattle.ciphers.specs.Aes.{forward as aes_forward, back as aes_back};
ghost use Rattle.ciphers.specs.Speck.{speck_forward, speck_back};
ghost use Rattle.ffi.specs.Statuses.{status_of, answer as answer_of, proof_answer, after_seal, after_open, after_seal_with_proof, after_open_with_proof, cmac_answer, after_cmac};

use base::Refusal;
use ciphers::{Aes128, Speck128};
use mode::{cmac_under_key, open, open_with_proof, seal, seal_with_proof};

// 0 where a call was accepted, and else the number of its refusal.
fn status(answer: Result<usize, Refusal>) -> usize
    ensures { result ≡ status_of answer }
{
    match answer {
        Ok(_) => 0,
        Err(why) => why.number(),
    }
}

#[unsafe(no_mangle)]
pub extern "C" fn vanhseak_aes128_seal(
    bundle: &[u8],
    nonce: &[u8],
    ad: &[u8],
    message: &mut [u8],
) -> usize
    ensures answer { result ≡ status_of (answer_of bundle.now nonce.now ad.now message.old) }
    ensures after { message.new ≡ after_seal (aes_forward 4) bundle.now nonce.now ad.now message.old }
{
    status(seal::<Aes128>(bundle, nonce, ad, message))
}

#[unsafe(no_mangle)]
pub extern "C" fn vanhseak_aes128_open(
    bundle: &[u8],
    nonce: &[u8],
    ad: &[u8],
    message: &mut [u8],
) -> usize
    ensures answer { result ≡ status_of (answer_of bundle.now nonce.now ad.now message.old) }
    ensures after { message.new ≡ after_open (aes_forward 4) (aes_back 4) bundle.now nonce.now ad.now message.old }
{
    status(open::<Aes128>(bundle, nonce, ad, message))
}

#[unsafe(no_mangle)]
pub extern "C" fn vanhseak_aes128_seal_with_proof(
    bundle: &[u8],
    nonce: &[u8],
    ad: &[u8],
    message: &mut [u8],
) -> usize
    ensures answer { result ≡ status_of (answer_of bundle.now nonce.now ad.now message.old) }
    ensures after { message.new ≡ after_seal_with_proof (aes_forward 4) bundle.now nonce.now ad.now message.old }
{
    status(seal_with_proof::<Aes128>(bundle, nonce, ad, message))
}

#[unsafe(no_mangle)]
pub extern "C" fn vanhseak_aes128_open_with_proof(
    bundle: &[u8],
    nonce: &[u8],
    ad: &[u8],
    message: &mut [u8],
) -> usize
    ensures answer { result ≡ status_of (proof_answer (aes_forward 4) (aes_back 4) bundle.now nonce.now ad.now message.old) }
    ensures after { message.new ≡ after_open_with_proof (aes_forward 4) (aes_back 4) bundle.now nonce.now ad.now message.old }
{
    status(open_with_proof::<Aes128>(bundle, nonce, ad, message))
}

#[unsafe(no_mangle)]
pub extern "C" fn vanhseak_speck128_seal(
    bundle: &[u8],
    nonce: &[u8],
    ad: &[u8],
    message: &mut [u8],
) -> usize
    ensures answer { result ≡ status_of (answer_of bundle.now nonce.now ad.now message.old) }
    ensures after { message.new ≡ after_seal speck_forward bundle.now nonce.now ad.now message.old }
{
    status(seal::<Speck128>(bundle, nonce, ad, message))
}

#[unsafe(no_mangle)]
pub extern "C" fn vanhseak_speck128_open(
    bundle: &[u8],
    nonce: &[u8],
    ad: &[u8],
    message: &mut [u8],
) -> usize
    ensures answer { result ≡ status_of (answer_of bundle.now nonce.now ad.now message.old) }
    ensures after { message.new ≡ after_open speck_forward speck_back bundle.now nonce.now ad.now message.old }
{
    status(open::<Speck128>(bundle, nonce, ad, message))
}

#[unsafe(no_mangle)]
pub extern "C" fn vanhseak_speck128_seal_with_proof(
    bundle: &[u8],
    nonce: &[u8],
    ad: &[u8],
    message: &mut [u8],
) -> usize
    ensures answer { result ≡ status_of (answer_of bundle.now nonce.now ad.now message.old) }
    ensures after { message.new ≡ after_seal_with_proof speck_forward bundle.now nonce.now ad.now message.old }
{
    status(seal_with_proof::<Speck128>(bundle, nonce, ad, message))
}

#[unsafe(no_mangle)]
pub extern "C" fn vanhseak_speck128_open_with_proof(
    bundle: &[u8],
    nonce: &[u8],
    ad: &[u8],
    message: &mut [u8],
) -> usize
    ensures answer { result ≡ status_of (proof_answer speck_forward speck_back bundle.now nonce.now ad.now message.old) }
    ensures after { message.new ≡ after_open_with_proof speck_forward speck_back bundle.now nonce.now ad.now message.old }
{
    status(open_with_proof::<Speck128>(bundle, nonce, ad, message))
}

#[unsafe(no_mangle)]
pub extern "C" fn vanhseak_aes128_cmac(key: &[u8], message: &[u8], code: &mut [u8; 16]) -> usize
    ensures answer { result ≡ status_of (cmac_answer 16 key.now message.now) }
    ensures after { code.new ≡ after_cmac (aes_forward 4) 16 key.now message.now code.old }
{
    status(cmac_under_key::<Aes128>(key, message, code))
}

#[unsafe(no_mangle)]
pub extern "C" fn vanhseak_speck128_cmac(key: &[u8], message: &[u8], code: &mut [u8; 16]) -> usize
    ensures answer { result ≡ status_of (cmac_answer 16 key.now message.now) }
    ensures after { code.new ≡ after_cmac speck_forward 16 key.now message.now code.old }
{
    status(cmac_under_key::<Speck128>(key, message, code))
}
