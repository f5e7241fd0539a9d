// The keys and codes of MEDIA, FAULTS and BAUD_RATES.
ghost use Rattle.std.specs.Prelude.{◌≡◌, option_map};
ghost use Rattle.std.specs.List.{find};
ghost use Rattle.std.specs.Str.{bytes_eq};
ghost use Rattle.meter.specs.Meter.{rates};
ghost use Rattle.list_check.specs.Tables.{media, faults, is_rate_value};
ghost use Rattle.list_check.specs.ProgramKeys.{row_of, fault_row_of, medium_row, fault_row};

use meter::{BAUD_RATES, Fault, Model};

// A row of a table: a key's text, and what it stands for.
#[derive(Clone, Copy)]
pub struct Keyed<T> {
    pub key: &'static [u8],
    pub value: T,
}

// The code in the telegram, and how the meter replies.
#[derive(Clone, Copy, PartialEq, Eq, Debug)]
pub struct Medium {
    pub code: u8,
    pub model: Model,
}

pub const MEDIA: [Keyed<Medium>; 8] = [
    Keyed {
        key: b"heat",
        value: Medium {
            code: 0x04,
            model: Model::Heat,
        },
    },
    Keyed {
        key: b"cooling",
        value: Medium {
            code: 0x0A,
            model: Model::Heat,
        },
    },
    Keyed {
        key: b"water",
        value: Medium {
            code: 0x07,
            model: Model::Water,
        },
    },
    Keyed {
        key: b"cold_water",
        value: Medium {
            code: 0x16,
            model: Model::Water,
        },
    },
    Keyed {
        key: b"warm_water",
        value: Medium {
            code: 0x06,
            model: Model::Water,
        },
    },
    Keyed {
        key: b"gas",
        value: Medium {
            code: 0x03,
            model: Model::Water,
        },
    },
    Keyed {
        key: b"electricity",
        value: Medium {
            code: 0x02,
            model: Model::Electricity,
        },
    },
    Keyed {
        key: b"heat_old",
        value: Medium {
            code: 0x04,
            model: Model::Fixed,
        },
    },
];

pub const FAULTS: [Keyed<Fault>; 7] = [
    Keyed {
        key: b"none",
        value: Fault::None,
    },
    Keyed {
        key: b"checksum",
        value: Fault::Checksum,
    },
    Keyed {
        key: b"truncated",
        value: Fault::Truncated,
    },
    Keyed {
        key: b"busy",
        value: Fault::Busy,
    },
    Keyed {
        key: b"wrong_address",
        value: Fault::WrongAddress,
    },
    Keyed {
        key: b"flaky",
        value: Fault::Flaky,
    },
    Keyed {
        key: b"too_many",
        value: Fault::TooMany,
    },
];

fn row_with<'a, T>(rows: &'a [Keyed<T>], key: &[u8]) -> Option<&'a Keyed<T>>
    ensures { option_map (λ row. row.now) result ≡ find (λ row. bytes_eq row.key.now key.now) rows.now }
{
    rows.iter().find(|row| row.key == key)
}

// The medium of a key.
pub(crate) fn find_medium(key: &[u8]) -> Option<&'static Keyed<Medium>>
    ensures { option_map (λ row. row_of row.now) result ≡ medium_row media key.now }
{
    row_with(&MEDIA, key)
}

// The fault of a key.
pub(crate) fn find_fault(key: &[u8]) -> Option<&'static Keyed<Fault>>
    ensures { option_map (λ row. fault_row_of row.now) result ≡ fault_row faults key.now }
{
    row_with(&FAULTS, key)
}

// One of the eight rates.
#[tactic(auto, unfolding(meter::specs::Meter::rates))]
pub fn is_rate(baud: u32) -> bool
    ensures { result ≡ is_rate_value rates baud }
{
    BAUD_RATES.contains(&baud)
}
