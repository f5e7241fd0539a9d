// How ids and manufacturers are written into bytes.
#![tactic(auto)]

ghost use Rattle.std.specs.Prelude.{◌≡◌, ◌-◌, ◌%◌};
ghost use Rattle.numbers.specs.Values.{little};
ghost use Rattle.meter_identity.specs.Identity.{capital, manufacturer_code_value};

// A small letter as its capital, every other byte as it is. The five bits of `letter` are the same for both, so it is
// this contract that holds the library's answer to `capital`.
fn upper(c: u8) -> u8
    ensures { result ≡ capital c }
{
    c.to_ascii_uppercase()
}

// Five bits of a letter, A is 1.
fn letter(c: u8) -> u16
    ensures { result ≡ (capital c - 0x40) % 32 }
{
    u16::from(upper(c).saturating_sub(0x40) % 32)
}

// Five bits to each of the first three letters; an empty text gives 0. By patterns, a line for each length.
pub fn manufacturer_code(name: &[u8]) -> u16
    ensures { result ≡ manufacturer_code_value name.now }
{
    match name {
        [] => 0,
        [a] => letter(*a),
        [a, b] => letter(*a) * 32 + letter(*b),
        [a, b, c, ..] => (letter(*a) * 32 + letter(*b)) * 32 + letter(*c),
    }
}

// The id's bytes, low byte first.
pub fn id_bytes(id: u32) -> [u8; 4]
    ensures { result ≡ little 4 id }
{
    id.to_le_bytes()
}
