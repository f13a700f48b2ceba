// CMAC over any block cipher, and the beta that binds a message to its nonce and associated data.
ghost use Rattle.std.specs.Prelude.{◌≡◌, ◌≤◌, ◌++◌, length, Ok};
ghost use Rattle.std.specs.List.{flat_map};
ghost use Rattle.base.specs.Refusals.{decided};
ghost use Rattle.base.specs.Bytes.{xor_front};
ghost use Rattle.base.specs.Blocks.{zero_padded};
ghost use Rattle.ciphers.specs.Keys.{key_checks};
ghost use Rattle.mode.specs.Cmac.{doubled, absorbed, last_masked, cmac_of};
ghost use Rattle.mode.specs.Sealing.{length_group, beta_one};
ghost use Rattle.mode.specs.Calls.{cmac_checks, if_accepted};

use crate::blocks::ended;
use crate::limits::{Binding, LONGEST_MESSAGE};
use base::{Refusal, xor_front};
use ciphers::BlockCipher;
use field::{double, element};

// CMAC's doubling of a block.
fn double_block(block: [u8; 16]) -> [u8; 16]
    ensures { result ≡ doubled block }
{
    double(u128::from_be_bytes(block)).to_be_bytes()
}

// Takes the whole input, with zeros up to whole blocks, into the state.
fn absorb<C: BlockCipher>(cipher: &C, state: &mut [u8; 16], input: &[u8])
    ensures { state.new ≡ absorbed (C.BlockCipher.forward (C.BlockCipher.key_of cipher.now)) state.old input.now }
{
    for block in input.chunks(16) {
        xor_front(state, block);
        cipher.encrypt(state);
    }
}

// The last block of a message with its subkey added.
fn masked_last<C: BlockCipher>(cipher: &C, last: &[u8]) -> [u8; 16]
    requires { length last.now ≤ 16 }
    ensures { result ≡ last_masked (C.BlockCipher.forward (C.BlockCipher.key_of cipher.now)) last.now }
{
    let mut zero = [0u8; 16];
    cipher.encrypt(&mut zero);
    let first = double_block(zero);
    if last.len() == 16 {
        let mut block = [0u8; 16];
        block.copy_from_slice(last);
        xor_front(&mut block, &first);
        block
    } else {
        let mut block = ended(last, 0x80);
        xor_front(&mut block, &double_block(first));
        block
    }
}

// Takes the last block of a message into the state, which is then the code.
fn finish<C: BlockCipher>(cipher: &C, state: &mut [u8; 16], last: &[u8])
    requires { length last.now ≤ 16 }
    ensures { state.new ≡ C.BlockCipher.forward (C.BlockCipher.key_of cipher.now) (xor_front state.old (last_masked (C.BlockCipher.forward (C.BlockCipher.key_of cipher.now)) last.now)) }
{
    xor_front(state, &masked_last(cipher, last));
    cipher.encrypt(state);
}

// The CMAC of a message under the cipher's key, into `code`. It answers 0, for it has no number to name.
pub fn cmac<C: BlockCipher>(
    cipher: &C,
    message: &[u8],
    code: &mut [u8; 16],
) -> Result<usize, Refusal>
    ensures answer { result ≡ decided (cmac_checks (length message.now)) (Ok 0) }
    ensures after { code.new ≡ if_accepted result (cmac_of (C.BlockCipher.forward (C.BlockCipher.key_of cipher.now)) message.now) code.old }
{
    if message.len() > LONGEST_MESSAGE {
        return Err(Refusal::WrongLength);
    }
    let before = message.len().saturating_sub(1) / 16;
    let (front, last) = message.split_at(before * 16);
    *code = [0u8; 16];
    absorb(cipher, code, front);
    finish(cipher, code, last);
    Ok(0)
}

// The CMAC of a message under a key, into `code`.
pub fn cmac_under_key<C: BlockCipher + Drop>(
    key: &[u8],
    message: &[u8],
    code: &mut [u8; 16],
) -> Result<usize, Refusal>
    ensures answer { result ≡ decided (key_checks C.BlockCipher.key_length (length key.now) ++ cmac_checks (length message.now)) (Ok 0) }
    ensures after { code.new ≡ if_accepted result (cmac_of (C.BlockCipher.forward key.now) message.now) code.old }
{
    let cipher = C::new(key)?;
    cmac(&cipher, message, code)
}

// The lengths of nonce, associated data and message, four bytes each, the lowest first, and four zeros.
fn length_parts(nonce: u32, ad: u32, message: u32) -> [[u8; 4]; 4]
    ensures { flat_map (λ part. part) result ≡ zero_padded (length_group nonce ad message) }
{
    [
        nonce.to_le_bytes(),
        ad.to_le_bytes(),
        message.to_le_bytes(),
        [0; 4],
    ]
}

// Beta one of a message that is bound so, under the prf key's cipher.
pub fn beta_one<C: BlockCipher>(prf: &C, bound: &Binding<'_>) -> u128
    ensures { result ≡ beta_one (C.BlockCipher.forward (C.BlockCipher.key_of prf.now)) bound.now.nonce.now bound.now.ad.now bound.now.message }
{
    let &Binding { nonce, ad, message } = bound;
    let lengths = length_parts(nonce.len() as u32, ad.len() as u32, message as u32);
    let mut state = [0u8; 16];
    absorb(prf, &mut state, nonce);
    absorb(prf, &mut state, ad);
    finish(prf, &mut state, lengths.as_flattened());
    element(&state)
}
