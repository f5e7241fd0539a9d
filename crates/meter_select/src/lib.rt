// A select's mask against a meter.
#![tactic(auto)]

ghost use Rattle.std.specs.Prelude.{◌≡◌, ◌||◌, [], ◌∷◌, ◌+◌, ◌*◌, ◌/◌, ◌%◌, eqb};
ghost use Rattle.meter_identity.specs.Identity.{nibbles, digits_of_value};
ghost use Rattle.meter_select.specs.Matching.{alike, matches};
ghost use Rattle.meter.specs.View.{plain_meter};

use meter::Meter;

// A number of the mask against the meter's; `any` matches every one.
fn fits<T: PartialEq + Copy>(mask: T, any: T, own: T) -> bool
    ensures { result ≡ (T.eq mask any || T.eq mask own) }
{
    mask == any || mask == own
}

// Two digits of the mask, a byte, against two of the id.
#[tactic(auto, unfolding(crate::specs::Matching::alike))]
fn digits_fit(mask: u8, own: u8) -> bool
    ensures { result ≡ alike (mask / 16 ∷ mask % 16 ∷ []) (own / 16 ∷ own % 16 ∷ []) }
{
    fits(mask / 16, 0xF, own / 16) && fits(mask % 16, 0xF, own % 16)
}

// The eight digits of the id, two by two from the most significant ones; both have their low byte first.
#[tactic(auto, using(crate::proofs::MatchLaws::by_bytes))]
fn id_fits(mask: [u8; 4], id: u32) -> bool
    ensures { result ≡ alike (nibbles mask) (digits_of_value id) }
{
    let [m0, m1, m2, m3] = mask;
    let [b0, b1, b2, b3] = id.to_le_bytes();
    digits_fit(m3, b3) && digits_fit(m2, b2) && digits_fit(m1, b1) && digits_fit(m0, b0)
}

// The manufacturer's code, low byte first; FF FF matches any.
fn manufacturer_fits(low: u8, high: u8, own: u16) -> bool
    ensures { result ≡ (eqb (low + high * 256) 0xFFFF || eqb (low + high * 256) own) }
{
    fits(u16::from_le_bytes([low, high]), 0xFFFF, own)
}

// Version or medium; FF matches any.
fn byte_fits(mask: u8, own: u8) -> bool
    ensures { result ≡ (eqb mask 0xFF || eqb mask own) }
{
    fits(mask, 0xFF, own)
}

// The first eight bytes of a select: id, manufacturer, version and medium; fewer match no meter.
#[tactic(auto, unfolding(crate::specs::Matching::matches, meter_identity::specs::Identity::nibbles))]
pub fn matches(m: Meter, data: &[u8]) -> bool
    ensures { result ≡ matches «data».now (plain_meter m) }
{
    let &[i0, i1, i2, i3, low, high, version, medium, ..] = data else {
        return false;
    };
    id_fits([i0, i1, i2, i3], m.built.id)
        && manufacturer_fits(low, high, m.built.manufacturer)
        && byte_fits(version, m.built.version)
        && byte_fits(medium, m.built.medium)
}
