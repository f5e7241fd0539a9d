// A simulated meter: what it keeps, and the changes of its parts.
#![tactic(auto)]

ghost use Rattle.std.specs.Prelude.{◌≡◌, slice_get};
ghost use Rattle.meter.specs.Meter.{rates};
ghost use Rattle.meter.specs.View.{blank_meter_value};

mod changes; // changes.rt: a meter with some of its parts changed, and whether it hears
mod kinds; // kinds.rt: models and faults by their numbers

// The rates that a meter can be set to, by number.
pub const BAUD_RATES: [u32; 8] = [300, 600, 1200, 2400, 4800, 9600, 19200, 38400];

// The rate of a number, if there is one.
#[tactic(auto, unfolding(crate::specs::Meter::rates))]
pub fn rate_of(n: u8) -> Option<u32>
    ensures { result ≡ slice_get rates n }
{
    BAUD_RATES.get(usize::from(n)).copied()
}

// The fault of a meter; `None` is one of the seven words that a list has for it.
#[derive(Clone, Copy, PartialEq, Eq, Debug, Default)]
pub enum Fault {
    #[default]
    None,
    Checksum,
    Truncated,
    // replies CI 70, "busy"
    Busy,
    // writes another primary address into its reply
    WrongAddress,
    // hears every second telegram only
    Flaky,
    // from the third readout on replies CI 70, "too many readouts"
    TooMany,
}

#[derive(Clone, Copy, PartialEq, Eq, Debug, Default)]
pub enum Model {
    #[default]
    Heat,
    Electricity,
    Water,
    // fixed data structure (CI 73), as very old meters have it
    Fixed,
}

// What an opening fixes. Code of the medium and model are apart, as in the definitions and in an image.
#[derive(Clone, Copy, PartialEq, Eq, Debug, Default)]
pub struct Built {
    // eight BCD digits, the most significant one in the highest nibble
    pub id: u32,
    pub manufacturer: u16,
    pub version: u8,
    pub medium: u8,
    pub model: Model,
    pub fault: Fault,
    // shifts the values, so that not all meters show the same
    pub seed: u32,
}

// What calls change; each meter has all of it, whatever its fault, as in 01. The bytes stand together, so that they are
// copied as one word.
#[derive(Clone, Copy, PartialEq, Eq, Debug, Default)]
pub struct State {
    pub primary: u8,
    pub access: u8,
    pub selected: bool,
    pub part: u8,
    // the FCB, the alternation bit, of the last REQ_UD2, if there was one
    pub last: Option<bool>,
    // of a meter with Fault::TooMany, up to 3
    pub readouts: u8,
    // of a meter with Fault::Flaky: whether it hears the next telegram
    pub hearing: bool,
    pub baud: u32,
}

#[derive(Clone, Copy, PartialEq, Eq, Debug)]
pub struct Meter {
    pub built: Built,
    pub state: State,
}

// What stands where there is no meter. A derived `Default` would promise a fact for each field, and not this value.
impl Default for Meter {
    ghost is_default = { λ m. m ≡ blank_meter_value };

    #[tactic(auto, unfolding(crate::specs::View::blank_meter_value))]
    fn default() -> Meter {
        Meter {
            built: Built::default(),
            state: State::default(),
        }
    }
}
