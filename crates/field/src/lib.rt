#![tactic(auto)]
// The field of 2^128 elements, each a number whose bit i is the coefficient of z^i.
ghost use Rattle.std.specs.Prelude.{◌≡◌, length};
ghost use Rattle.base.specs.Numbers.{number};
ghost use Rattle.field.specs.Field.{field_product, times_z, FieldLaws};

mod factors;

pub use factors::Factor;

// z^7 + z^2 + z + 1, which z^128 is equal to
const REDUCTION: u128 = 0x87;

// The product of z and a.
pub fn double(a: u128) -> u128
    ensures { result ≡ times_z a }
{
    if a >> 127 == 1 {
        (a << 1) ^ REDUCTION
    } else {
        a << 1
    }
}

// The product of a and b: b is doubled along the bits of a, and added at each that is set.
pub fn product(a: u128, b: u128) -> u128
    ensures { result ≡ field_product a b }
{
    let mut rest = a;
    let mut multiple = b;
    let mut sum = 0u128;
    // once for each bit: a fold would carry the same three values
    for _bit in 0..128u32 {
        if rest % 2 == 1 {
            sum ^= multiple;
        }
        rest /= 2;
        multiple = double(multiple);
    }
    sum
}

// The element that a block stands for, its lowest byte first.
pub fn element(block: &[u8]) -> u128
    requires { length block.now ≡ 16 }
    ensures { result ≡ number block.now }
{
    u128::from_le_bytes(*block.as_array().unwrap())
}

// The laws of the field are what it promises; its answer says nothing more.
pub fn field_laws() -> usize
    ensures answer { result ≡ 0 }
    ensures laws { FieldLaws }
{
    0
}
