// The routines that make BCD values, for the benchmark to call: their bytes as one number, low byte first. C has no
// generics, so each width is an exported function.
#![tactic(auto)]

ghost use Rattle.numbers.specs.Number.{number};
ghost use Rattle.numbers.specs.Values.{bcd};
ghost use Rattle.std.specs.Prelude.{◌≡◌};

#[unsafe(no_mangle)]
#[tactic(auto, unfolding(numbers::specs::Number::number, numbers::specs::Values::bcd))]
pub extern "C" fn test_bcd4(v: u64) -> u32
    ensures { result ≡ number 4 0 (bcd 4 v) }
{
    u32::from_le_bytes(numbers::bcd4(v))
}

#[unsafe(no_mangle)]
#[tactic(auto, unfolding(numbers::specs::Number::number, numbers::specs::Values::bcd))]
pub extern "C" fn test_bcd6(v: u64) -> u64
    ensures { result ≡ number 6 0 (bcd 6 v) }
{
    let [b0, b1, b2, b3, b4, b5] = numbers::bcd6(v);
    u64::from_le_bytes([b0, b1, b2, b3, b4, b5, 0, 0])
}
