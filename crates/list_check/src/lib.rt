// The rules of a record of the meter list, with the tables that they need.
#![tactic(auto)]

pub mod check; // check.rt: a record against the rules
pub mod refusal; // refusal.rt: why an opening is refused
pub mod tables; // tables.rt: keys and codes of media and faults, and the rates

ghost use Rattle.std.specs.Prelude.{◌≡◌};
ghost use Rattle.list_check.specs.Checked.{fail_number_value};

use laws::answer::Numbered;
use laws::refused;
use meter::Fault;
use tables::Medium;

// The rule that a record fails.
#[derive(Clone, Copy, PartialEq, Eq, Debug)]
pub enum Failing {
    BadPrimary,
    BadId,
    BadManufacturer,
    BadMedium,
    BadBaud,
    BadFault,
}

impl Numbered for Failing {
    ghost number_of = { fail_number_value };

    fn number(self) -> u32 {
        match self {
            Failing::BadPrimary => refused::PRIMARY,
            Failing::BadId => refused::ID,
            Failing::BadManufacturer => refused::MANUFACTURER,
            Failing::BadMedium => refused::MEDIUM,
            Failing::BadBaud => refused::OWN_BAUD,
            Failing::BadFault => refused::FAULT,
        }
    }
}

// The values of a record that passes. `baud` is its own, if not the bus's at opening; `id` has the id's digits as
// nibbles, `number` is the id as a decimal number.
#[derive(Clone, Copy)]
pub struct Values {
    pub primary: u8,
    pub version: u8,
    pub baud: Option<u32>,
    pub id: u32,
    pub number: u32,
    pub manufacturer: u16,
    pub medium: Medium,
    pub fault: Fault,
}
