// Byte strings: adding by xor, wiping, and telling whether all is zero.
ghost use Rattle.std.specs.Prelude.{◌≡◌, length};
ghost use Rattle.base.specs.Bytes.{xor_front, zeros, all_zero};

// Adds the bytes of b onto the first bytes of a, by xor, as far as both go.
pub fn xor_front(a: &mut [u8], b: &[u8])
    ensures { a.new ≡ xor_front a.old b.now }
{
    // by index: after `a.iter_mut().zip(b)` a proof does not know what was written
    for i in 0..a.len().min(b.len()) {
        a[i] ^= b[i];
    }
}

// Makes every byte zero.
pub fn wipe(s: &mut [u8])
    ensures { s.new ≡ zeros (length s.old) }
{
    s.fill(0);
}

// Whether every byte is zero.
pub fn all_zero(bytes: &[u8]) -> bool
    ensures { result ≡ all_zero bytes.now }
{
    bytes.iter().all(|byte| *byte == 0)
}
