// Whom a telegram concerns, worked out once for each telegram. The test of a meter is then a few operations on numbers.
#![tactic(auto)]

ghost use Rattle.std.specs.Prelude.{◌≡◌, Bool, true, false, ◌||◌, ℕ, ◌*◌, ◌/◌, ◌%◌, ◌<◌};
ghost use Rattle.frame.specs.Frame.{long};
ghost use Rattle.frame.specs.View.{telegram_of};
ghost use Rattle.meter_identity.specs.Identity.{digits_of_value};
ghost use Rattle.meter_select.specs.Matching.{id_matches_value};
ghost use Rattle.meter_step.specs.Hear.{reaches};
ghost use Rattle.meter_concern.specs.ProgramConcern.{concerns_by};
ghost use Rattle.meter_concern.specs.ProgramSeeking.{known_digit_value, known_digits, sought_by_value, Seeks};

use frame::Frame;

// The selected, if they are sought; and those whose first bytes in an image (primary address, id and three more, low
// byte first) have the bits wanted where the mask has them. Under mask 0 every meter has 0, and none has 1. It is no
// enum of the four kinds: as bits they are one test, which is made of each meter in turn.
#[derive(Clone, Copy, PartialEq, Eq, Debug)]
pub struct Seeking {
    pub selected: bool,
    pub mask: u64,
    pub want: u64,
}

impl Seeking {
    const EVERYBODY: Seeking = Seeking {
        selected: false,
        mask: 0,
        want: 0,
    };

    const NOBODY: Seeking = Seeking {
        selected: false,
        mask: 0,
        want: 1,
    };

    const THE_SELECTED: Seeking = Seeking {
        selected: true,
        mask: 0,
        want: 1,
    };

    // Whether a meter is sought, by its first eight bytes in an image, as a number, and its selection; whatever test the
    // Seeking stands for, it is that test.
    pub fn seeks(self, word: u64, selected: bool) -> bool
        ensures by { result ≡ sought_by_value self word selected }
        ensures test { (test : ℕ → Bool → ℕ → Bool) → Seeks test self → result ≡ test (word % 256) selected (word / 256 % 4294967296) }
    {
        (selected & self.selected) | (word & self.mask == self.want)
    }
}

// F for a digit of the mask that is known, and the same of the two digits of a byte.
fn known_digit(d: u8) -> u8
    ensures { (result ≡ known_digit_value d) × (result < 16) }
{
    if d == 15 { 0 } else { 15 }
}

fn known(mask: u8) -> u8
    ensures { result ≡ known_digits mask }
{
    known_digit(mask / 16) * 16 + known_digit(mask % 16)
}

// Bits of the id, which stands behind the primary address.
fn behind_primary(id: u32) -> u64
    ensures { result ≡ 256 * id }
{
    256 * u64::from(id)
}

// A select seeks the selected, and those whose id it matches.
fn by_id(data: &[u8]) -> Seeking
    ensures { Seeks (λ p s i. s || id_matches_value «data».now (digits_of_value i)) result }
{
    if data.len() < 8 {
        return Seeking::THE_SELECTED;
    }
    let mask = u32::from_le_bytes([
        known(data[0]),
        known(data[1]),
        known(data[2]),
        known(data[3]),
    ]);
    let want = u32::from_le_bytes([data[0], data[1], data[2], data[3]]) & mask;
    Seeking {
        selected: true,
        mask: behind_primary(mask),
        want: behind_primary(want),
    }
}

fn by_address(address: u8) -> Seeking
    ensures { Seeks (λ p s i. reaches address p s) result }
{
    match address {
        frame::ADDR_BROADCAST | frame::ADDR_BROADCAST_REPLY => Seeking::EVERYBODY,
        frame::ADDR_SELECTED => Seeking::THE_SELECTED,
        _ => Seeking {
            selected: false,
            mask: 255,
            want: u64::from(address),
        },
    }
}

// The test of a select is two comparisons, as in meter_step.
fn by_long(address: u8, ci: u8, data: &[u8]) -> Seeking
    ensures { (c : ℕ) → Seeks (concerns_by (long c address ci «data».now)) result }
{
    if ci == frame::CI_SELECT && address == frame::ADDR_SELECTED {
        by_id(data)
    } else {
        by_address(address)
    }
}

// Seeks the meters that the telegram concerns.
pub fn sought_by(frame: Frame<'_>) -> Seeking
    ensures { Seeks (concerns_by (telegram_of frame.entry)) result }
{
    match frame {
        Frame::Ack => Seeking::NOBODY,
        Frame::Short { address, .. } => by_address(address),
        Frame::Long {
            address,
            ci,
            data,
            ..
        } => by_long(address, ci, data),
    }
}
