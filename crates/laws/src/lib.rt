// A copy of bytes, the numbers of the refusals, and what a call answers as numbers.
#![tactic(auto)]

ghost use Rattle.std.specs.Prelude.{◌≡◌, min, ◌≤◌, ◌++◌, length, take, drop};

pub mod answer; // answer.rt: what a call answers, as numbers
pub mod refused; // refused.rt: the numbers of 01's places of refusal

// As many bytes of `from` as fit go to the front of `to`; how many. `copy_from_slice` asks for equal lengths.
pub fn copy(from: &[u8], to: &mut [u8]) -> usize
    ensures count { result ≡ min (length from.now) (length to.old) }
    ensures bytes { to.new ≡ take (length to.old) from.now ++ drop (length from.now) to.old }
{
    let n = from.len().min(to.len());
    to[..n].copy_from_slice(&from[..n]);
    n
}
