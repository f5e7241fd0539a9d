// A number without its low decimal digits, and without dividing: x / d is x * m / 2^s, where m is 2^s / d, rounded up.
// That is exact for numbers of as many bits as each function says (proofs/ReciprocalLaws: reciprocal). What differs from
// one to the next is its constants, and one lemma proves them; with the shift as a const parameter the source would
// divide by what is no number, which `.ci/divisors` refuses.
ghost use Rattle.std.specs.Prelude.{◌≡◌, ◌*◌, ◌/◌, ◌<◌, ◌≤◌};

// A product of numbers of 32 bits: 64 have room for two such numbers more.
fn product(a: u64, b: u64) -> u64
    requires { (a < 4294967296) × (b < 4294967296) }
    ensures { (result ≡ a * b) × (result ≤ 18446744065119617025) }
{
    a * b
}

// The upper 64 bits of a product of 128, from the products of the factors' halves.
fn upper(x: u64, m: u64) -> u64
    ensures { result ≡ x * m / 18446744073709551616 }
{
    let x0 = x % 4294967296;
    let x1 = x / 4294967296;
    let m0 = m % 4294967296;
    let m1 = m / 4294967296;
    let t = product(x1, m0) + product(x0, m0) / 4294967296;
    let u = product(x0, m1) + t % 4294967296;
    product(x1, m1) + t / 4294967296 + u / 4294967296
}

// Without the last digit: shift 10, exact to 7 bits.
pub(super) fn above1(x: u64) -> u64
    requires { x < 128 }
    ensures { result ≡ x / 10 }
{
    x * 103 / 1024
}

// Without the last two digits: shift 19, exact to 15 bits.
pub(super) fn above2(x: u64) -> u64
    requires { x < 32768 }
    ensures { result ≡ x / 100 }
{
    x * 5243 / 524288
}

// Without the last four digits: shift 75, exact to 64 bits.
pub(super) fn above4(v: u64) -> u64
    ensures { result ≡ v / 10000 }
{
    upper(v, 3777893186295716171) / 2048
}

// Without the last eight digits: shift 90, exact to 64 bits.
pub(super) fn above8(v: u64) -> u64
    ensures { result ≡ v / 100000000 }
{
    upper(v, 12379400392853802749) / 67108864
}

// Without the last twelve digits: shift 101, exact to 64 bits.
pub(super) fn above12(v: u64) -> u64
    ensures { result ≡ v / 1000000000000 }
{
    upper(v, 2535301200456458803) / 137438953472
}
