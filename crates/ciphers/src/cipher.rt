// What every block cipher means.
ghost use Rattle.std.specs.Prelude.{◌≡◌, ℕ, List, length};
ghost use Rattle.base.specs.Bytes.{Block};
ghost use Rattle.ciphers.specs.Keys.{Key, KeyLength, Keyed};

use base::Refusal;

// A cipher on blocks of sixteen bytes. Its kind alone fixes two functions of key and block, forward and back, and each
// undoes the other on every block under every key. A value of the type has one key, and its calls compute the two.
pub trait BlockCipher: Sized {
    // how long a key is: 16, 24 or 32 bytes
    const KEY_LEN: usize;

    // KEY_LEN in contracts
    ghost KEY_LEN: { ℕ };

    // the length of a key
    ghost key_length: { ℕ };

    // a block under a key, forward and back
    ghost forward: { List ℕ → List ℕ → List ℕ };

    ghost back: { List ℕ → List ℕ → List ℕ };

    // the key of a cipher
    ghost key_of: { Self → List ℕ };

    // KEY_LEN, as a value that contracts can speak of; each cipher says it for itself, as a constant is named by its own type alone.
    fn stated_key_len() -> usize
        ensures { result ≡ key_length };

    // A cipher of this key, or WrongKeyLength.
    fn new(key: &[u8]) -> Result<Self, Refusal>
        ensures { Keyed key_length key_of key.now result };

    // Turns a block forward where it lies: a slice with a clause, since parts of a message are lent on as slices.
    fn encrypt(&self, block: &mut [u8])
        requires { length block.old ≡ 16 }
        ensures { block.new ≡ forward (key_of self.now) block.old };

    // Turns a block back where it lies.
    fn decrypt(&self, block: &mut [u8])
        requires { length block.old ≡ 16 }
        ensures { block.new ≡ back (key_of self.now) block.old };

    // the length is one of the three
    ghost stated: { KeyLength key_length };

    // every cipher has a key of that length
    ghost keyed: { (c : Self) → Key key_length (key_of c) };

    // back undoes forward, and forward undoes back
    ghost undone: { (k b : List ℕ) → Key key_length k → Block b → back k (forward k b) ≡ b };

    ghost redone: { (k b : List ℕ) → Key key_length k → Block b → forward k (back k b) ≡ b };

    // both take blocks to blocks
    ghost ahead: { (k b : List ℕ) → Key key_length k → Block b → Block (forward k b) };

    ghost behind: { (k b : List ℕ) → Key key_length k → Block b → Block (back k b) };
}
