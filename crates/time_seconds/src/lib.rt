// The whole seconds of a time, the time that has elapsed, and an `f64` as a number and back: in the terms of the
// definitions, for every float.
#![tactic(auto)]

ghost use Rattle.std.specs.Prelude.{◌≡◌};
ghost use Rattle.std.specs.Float.{binary64};
ghost use Rattle.std.specs.Float.Ieee.{to_bits, of_bits};
ghost use Rattle.time_seconds.specs.Seconds.{whole, last32, last64, elapsed_of_value};

use std::num::{
    f64_from_bits_with_nan, f64_to_bits_with_nan, saturating_f64_to_u32, saturating_f64_to_u64,
};

// The whole seconds of t, as a `u64` and as a `u32`. The two differ in std's function and in the type, and std has no trait
// for such casts: one generic function would need a trait of our own with an impl for each type, which repeats these lines.
#[tactic(auto, using(crate::proofs::Worked::as_u64))]
pub fn whole_u64(t: f64) -> u64
    ensures { result ≡ whole last64 t }
{
    saturating_f64_to_u64(t)
}

#[tactic(auto, using(crate::proofs::Worked::as_u32))]
pub fn whole_u32(t: f64) -> u32
    ensures { result ≡ whole last32 t }
{
    saturating_f64_to_u32(t)
}

// now - origin, rounded once, not below 0.
pub fn elapsed(now: f64, origin: f64) -> f64
    ensures { result ≡ elapsed_of_value now origin }
{
    let d = now - origin;
    // Not `d.max(0.0)`: where d is -0, that may be -0.
    if d > 0.0 { d } else { 0.0 }
}

// An `f64` as a `u64`, for every float: a NaN goes as one fixed pattern.
pub fn f64_bits(x: f64) -> u64
    ensures { result ≡ to_bits binary64 x }
{
    f64_to_bits_with_nan(x)
}

// And back, for every pattern: every NaN pattern comes back as a NaN.
pub fn f64_from_bits(n: u64) -> f64
    ensures { result ≡ of_bits binary64 n }
{
    f64_from_bits_with_nan(n)
}
