// Products by one element, worked out by eight terms of the other at a time.
ghost use Rattle.std.specs.Prelude.{◌≡◌, ℕ, ◌^◌, ◌<◌};
ghost use Rattle.field.specs.Field.{field_product};
ghost use Rattle.field.specs.Factors.{Multiples, factor_of};

use crate::double;
use std::marker::Model;

// The multiples of a by the sixteen polynomials of degree below 4, each at its number.
fn multiples_of(a: u128) -> [u128; 16]
    ensures { Multiples a result }
{
    let mut multiples = [0u128; 16];
    // by number, since each is made from the one at half its number, which the array has by then
    for i in 1..16 {
        let even = double(multiples[i / 2]);
        multiples[i] = if i % 2 == 1 { even ^ a } else { even };
    }
    multiples
}

// The product of z^4 and a.
fn four_up(a: u128) -> u128
    ensures { result ≡ field_product 16 a }
{
    double(double(double(double(a))))
}

// The product of z^7 + z^2 + z + 1, which z^128 is equal to, and the terms that fall out eight places up.
fn reduced(top: u128) -> u128
    requires { top < 256 }
    ensures { result ≡ field_product 135 top }
{
    (top << 7) ^ (top << 2) ^ (top << 1) ^ top
}

// The product of z^8 and a.
fn eight_up(a: u128) -> u128
    ensures { result ≡ field_product 256 a }
{
    (a << 8) ^ reduced(a >> 120)
}

// An element that others are multiplied by, with multiples of it and of its product with z^4 worked out. Contracts see the
// element.
#[derive(Drop)]
pub struct Factor {
    low: [u128; 16],
    high: [u128; 16],
}

impl Model for Factor {
    ghost Value = { ℕ };

    ghost view = { λ f. factor_of f.low };

    ghost invariant = { λ f. Multiples (factor_of f.low) f.low × Multiples (field_product 16 (factor_of f.low)) f.high };
}

impl Factor {
    pub fn new(a: u128) -> Factor
        ensures { result ≡ a }
    {
        let low = multiples_of(a);
        let high = multiples_of(four_up(a));
        Factor { low, high }
    }

    // The product with b: its terms from the highest on, eight at a time.
    pub fn times(&self, b: u128) -> u128
        ensures product { result ≡ field_product self.now b }
        ensures element { self.now < 2 ^ 128 }
    {
        let mut sum = 0u128;
        // by shifts: making the bytes of b into an array first took more time
        for i in (0..16u32).rev() {
            let terms = ((b >> (8 * i)) % 256) as usize;
            sum = eight_up(sum) ^ self.high[terms / 16] ^ self.low[terms % 16];
        }
        sum
    }
}
