// Speck128/128, as its designers define it.
ghost use Rattle.std.specs.Prelude.{◌≡◌, length};
ghost use Rattle.base.specs.Bytes.{AllBytes};
ghost use Rattle.base.specs.Numbers.{number};
ghost use Rattle.ciphers.specs.Speck.{round as round_of, unround as unround_of, rounds, unrounds, words_of, block_of, round_keys, speck_forward, speck_back};
ghost use Rattle.ciphers.specs.SpeckUndoing;
ghost use Rattle.std.proofs.Common.{rules, arith};

use crate::cipher::BlockCipher;
use base::Refusal;

// The words (a, b) of a block, or (m, k) of a key, which go through a round together: a pair, as the definitions have it.
type Words = (u64, u64);

// One round with a round key.
fn round(words: Words, key: u64) -> Words
    ensures { result ≡ round_of words key }
{
    let (a, b) = words;
    let new_a = a.rotate_right(8).wrapping_add(b) ^ key;
    (new_a, b.rotate_left(3) ^ new_a)
}

// A round undone.
fn unround(words: Words, key: u64) -> Words
    ensures { result ≡ unround_of words key }
{
    let (a, b) = words;
    let old_b = (b ^ a).rotate_right(3);
    ((a ^ key).wrapping_sub(old_b).rotate_left(8), old_b)
}

// A round for each key, in their order.
fn rounds_forward(keys: &[u64], words: Words) -> Words
    ensures { result ≡ rounds words keys.now }
{
    keys.iter().fold(words, |words, key| round(words, *key))
}

// The rounds undone, from the last key to the first.
fn rounds_back(keys: &[u64], words: Words) -> Words
    ensures { result ≡ unrounds words keys.now }
{
    keys.iter()
        .rev()
        .fold(words, |words, key| unround(words, *key))
}

// Eight bytes as a word, the lowest first.
fn read_word(bytes: &[u8]) -> u64
    requires { length bytes.now ≡ 8 }
    ensures { result ≡ number bytes.now }
{
    u64::from_le_bytes(*bytes.as_array().unwrap())
}

// The words of sixteen bytes.
fn read_words(bytes: &[u8]) -> Words
    requires { length bytes.now ≡ 16 }
    ensures { result ≡ words_of bytes.now }
{
    (read_word(&bytes[8..16]), read_word(&bytes[0..8]))
}

// The words into sixteen bytes.
fn write_words(words: Words, bytes: &mut [u8])
    requires { length bytes.old ≡ 16 }
    ensures { bytes.new ≡ block_of words }
{
    let (a, b) = words;
    bytes[0..8].copy_from_slice(&b.to_le_bytes());
    bytes[8..16].copy_from_slice(&a.to_le_bytes());
}

// The key schedule: each round key is the word k, and a step is a round on (m, k).
fn round_keys(key: &[u8]) -> [u64; 32]
    requires { length key.now ≡ 16 }
    ensures { result ≡ round_keys key.now }
{
    let mut keys = [0u64; 32];
    let mut words = read_words(key);
    for (i, round_key) in keys.iter_mut().enumerate() {
        *round_key = words.1;
        words = round(words, i as u64);
    }
    keys
}

// Speck128/128 under one key, with its round keys worked out.
#[derive(Drop)]
pub struct Speck128 {
    key: [u8; 16],
    keys: [u64; 32],
    ghost long: { length key ≡ 16 },
    ghost fit: { AllBytes key },
    ghost made: { keys ≡ round_keys key },
}

impl BlockCipher for Speck128 {
    const KEY_LEN: usize = 16;

    ghost KEY_LEN = { 16 };

    ghost key_length = { 16 };

    ghost forward = { speck_forward };

    ghost back = { speck_back };

    ghost key_of = { λ s. s.key };

    ghost stated = { first_of (Prim.search rules, Prim.grind (arith, Self.row.coded.inj)) };

    ghost keyed = { first_of (Prim.search rules, Prim.grind (arith, Self.row.coded.inj)) };

    ghost undone = { λ k b key bl. SpeckUndoing.undone k key b bl };

    ghost redone = { λ k b key bl. SpeckUndoing.redone k key b bl };

    ghost ahead = { λ k b key bl. SpeckUndoing.ahead k b };

    ghost behind = { λ k b key bl. SpeckUndoing.behind k b };

    fn stated_key_len() -> usize
        ensures value { result ≡ 16 }
        ensures constant { result ≡ ⟦<Self as BlockCipher>⟧.KEY_LEN }
    {
        Self::KEY_LEN
    }

    fn new(key: &[u8]) -> Result<Self, Refusal> {
        if key.len() != Self::KEY_LEN {
            return Err(Refusal::WrongKeyLength);
        }
        let keys = round_keys(key);
        let key = *key.as_array().unwrap();
        Ok(Speck128 { key, keys })
    }

    fn encrypt(&self, block: &mut [u8]) {
        write_words(rounds_forward(&self.keys, read_words(block)), block);
    }

    fn decrypt(&self, block: &mut [u8]) {
        write_words(rounds_back(&self.keys, read_words(block)), block);
    }
}
