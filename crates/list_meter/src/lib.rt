// The meter that an opening begins with for a record.
#![tactic(auto)]

ghost use Rattle.std.specs.Prelude.{◌≡◌};
ghost use Rattle.list_meter.specs.Fresh.{other_than_bus_value, seed_from};
ghost use Rattle.list_meter.specs.ProgramFresh.{baud_from, fresh_of};

use list_check::Values;
use meter::{Built, Meter, State};

// An own baud equal to the bus baud becomes 2400 with the practice flag.
#[tactic(auto, unfolding(crate::specs::Fresh::other_than_bus_value))]
fn other_than_bus(own: u32, bus: u32, practice: bool) -> u32
    ensures { result ≡ other_than_bus_value bus practice own }
{
    if practice && own == bus { 2400 } else { own }
}

fn baud_of(own: Option<u32>, bus: u32, practice: bool) -> u32
    ensures { result ≡ baud_from bus practice own }
{
    match own {
        None => bus,
        Some(baud) => other_than_bus(baud, bus, practice),
    }
}

// Readings differ from meter to meter, and are always the same for one id; with the practice flag all begin alike.
fn seed_of(number: u32, practice: bool) -> u32
    ensures { result ≡ seed_from practice number }
{
    if practice { 0 } else { number % 997 * 53 }
}

// A fresh meter. A flaky one misses its first telegram. The bus baud and the flag stay two parameters, as the C interface
// and the definition have them.
#[tactic(auto, unfolding(crate::specs::ProgramFresh::fresh_of))]
pub fn fresh(v: Values, bus: u32, practice: bool) -> Meter
    ensures { result ≡ fresh_of bus practice v }
{
    let built = Built {
        id: v.id,
        manufacturer: v.manufacturer,
        version: v.version,
        medium: v.medium.code,
        model: v.medium.model,
        fault: v.fault,
        seed: seed_of(v.number, practice),
    };
    let state = State {
        primary: v.primary,
        baud: baud_of(v.baud, bus, practice),
        ..State::default()
    };
    Meter { built, state }
}
