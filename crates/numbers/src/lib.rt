// Numbers as BCD bytes, low byte first. The crate has no loop and calls no other crate, not even std, so that
// `.ci/divisors` can see from its source that BCD values are made without dividing.
#![tactic(auto)]

ghost use Rattle.std.specs.Prelude.{◌+◌, ◌*◌, ◌/◌, ◌%◌, ◌<◌, ◌≡◌};
ghost use Rattle.numbers.specs.Values.{bcd};

use reciprocal::{above1, above2, above4, above8, above12};

mod reciprocal; // reciprocal.rt: a number without its low decimal digits

// A function for each width: with the width as a const parameter there would be a loop.

// Two decimal digits in a byte, the higher one in the upper nibble, where it counts 16 and not 10.
fn digits2(x: u64) -> u8
    requires { x < 100 }
    ensures { result ≡ x / 10 % 10 * 16 + x % 10 }
{
    (x + above1(x) * 6) as u8
}

// Four decimal digits, low byte first.
fn digits4(x: u64) -> [u8; 2]
    requires { x < 10000 }
    ensures { result ≡ bcd 2 x }
{
    let h = above2(x);
    [digits2(x - h * 100), digits2(h)]
}

// The low eight decimal digits, low byte first.
pub fn bcd4(v: u64) -> [u8; 4]
    ensures { result ≡ bcd 4 v }
{
    let v4 = above4(v);
    let [b0, b1] = digits4(v - v4 * 10000);
    let [b2, b3] = digits4(v4 - above8(v) * 10000);
    [b0, b1, b2, b3]
}

// The low twelve decimal digits, low byte first.
pub fn bcd6(v: u64) -> [u8; 6]
    ensures { result ≡ bcd 6 v }
{
    let [b0, b1, b2, b3] = bcd4(v);
    let [b4, b5] = digits4(above8(v) - above12(v) * 10000);
    [b0, b1, b2, b3, b4, b5]
}
