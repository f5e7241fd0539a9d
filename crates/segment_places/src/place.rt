// Bytes and numbers at a place of an image.
ghost use Rattle.std.specs.Prelude.{◌≡◌, ◌+◌, ◌*◌, ◌≤◌, ◌<◌, length, take, drop, replicate};
ghost use Rattle.std.proofs.Math.Seq.{paste};
ghost use Rattle.numbers.specs.Values.{little};

use segment_image::IMAGE;

// Some bytes over those from p on. Private, as `copy` of segment_image: one for both would be public, with no `requires`,
// and would test again what both know.
pub(crate) fn put(image: &mut [u8], p: usize, bytes: &[u8])
    requires { p + length bytes.now ≤ length image.old }
    ensures { image.new ≡ paste image.old p bytes.now (length bytes.now) }
{
    image[p..p + bytes.len()].copy_from_slice(bytes);
}

// n times the byte b over those from p on.
pub(crate) fn fill(image: &mut [u8], p: usize, n: usize, b: u8)
    requires { p + n ≤ length image.old }
    ensures { image.new ≡ paste image.old p (replicate n b) n }
{
    image[p..p + n].fill(b);
}

// The N bytes from p on. Private, as the same of segment_image: one for both would be public, with no `requires`, and
// would test again what both know.
pub(crate) fn bytes_at<const N: usize>(image: &[u8], p: usize) -> [u8; N]
    requires { p + N ≤ length image.now }
    ensures { result ≡ take N (drop p image.now) }
{
    let mut bytes = [0; N];
    bytes.copy_from_slice(&image[p..p + N]);
    bytes
}

// The two low bytes of a number, from p on.
#[tactic(auto, unfolding(numbers::specs::Values::little))]
pub(crate) fn put_two(image: &mut [u8; IMAGE], p: usize, n: usize)
    requires { p + 2 ≤ 5974 }
    ensures { image.new ≡ paste image.old p (little 2 n) 2 }
{
    let [low, high, ..] = n.to_le_bytes();
    put(image, p, &[low, high])
}
