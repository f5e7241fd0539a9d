// Bytes out of a place, and blocks of bytes into one.
ghost use Rattle.std.specs.Prelude.{◌≡◌, ◌+◌, ◌≤◌, length, take, drop, replicate};
ghost use Rattle.std.proofs.Math.Seq.{paste};

// The N bytes from p on. Private, as the same of segment_places: one for both would be public, with no `requires`, and
// would test again what both know.
pub(crate) fn bytes_at<const N: usize>(bs: &[u8], p: usize) -> [u8; N]
    requires { p + N ≤ length bs.now }
    ensures { result ≡ take N (drop p bs.now) }
{
    let mut bytes = [0; N];
    bytes.copy_from_slice(&bs[p..p + N]);
    bytes
}

// All of `from` goes into `to` from p on. Private, as `put` of segment_places: one for both would be
// public, with no `requires`, and would test again what both know.
pub(crate) fn copy(from: &[u8], to: &mut [u8], p: usize)
    requires { p + length from.now ≤ length to.old }
    ensures { to.new ≡ paste to.old p from.now (length from.now) }
{
    to[p..p + from.len()].copy_from_slice(from);
}
