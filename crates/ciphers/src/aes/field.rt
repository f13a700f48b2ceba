// Products in the byte field, worked out by doubling.
ghost use Rattle.std.specs.Prelude.{◌≡◌};
ghost use Rattle.ciphers.specs.AesField.{product};

// Times x: one place up, and the polynomial's lower terms for the x^8 that falls out.
pub(super) fn double(a: u8) -> u8
    ensures { result ≡ product 2 a }
{
    (a << 1) ^ (27 * (a >> 7))
}

// Times a factor: its bits say which of a, twice a, four times a and so on are added up, as in the product of `field` on wider
// numbers, which these crates don't share. Joined with its caller, which knows the factor.
#[inline(always)]
pub(super) fn times(factor: u8, a: u8) -> u8
    ensures { result ≡ product factor a }
{
    let mut bits = factor;
    let mut multiple = a;
    let mut sum = 0;
    // once for each bit: a fold would carry the same three values
    for _i in 0..8u32 {
        if bits % 2 == 1 {
            sum ^= multiple;
        }
        bits /= 2;
        multiple = double(multiple);
    }
    sum
}
