// The record of a meter in a list, written as bytes.
#![tactic(auto)]

ghost use Rattle.meter.specs.View.{plain_meter};
ghost use Rattle.list_write.specs.Record.{record_for};
ghost use Rattle.list_write.specs.ProgramRecord.{IsRest};
ghost use Rattle.list_write.specs.View.{held};

use front::front_of;
use keys::{fault_key, medium_key};
use letters::{capitals_of, letters};
use list_check::tables::Medium;
use meter::Meter;

mod front; // front.rt: the parts of a record that have a fixed length
mod keys; // keys.rt: the keys of media and faults
mod letters; // letters.rt: the letters of a manufacturer
mod written; // written.rt: bytes written one behind the other

pub use written::Written;

// The longest rest of a record: 6 bytes, and texts of at most 8, 3, 11 and 13 bytes, each after its length.
pub const REST: usize = 45;

// The rest of a record, after its length byte.
pub type Rest = Written<REST>;

// The record of a meter, for a list that is to be opened at this bus baud.
pub fn rest_of(bus: u32, m: Meter) -> Rest
    ensures { IsRest (record_for bus (plain_meter m)) (held result) }
{
    let medium = Medium {
        code: m.built.medium,
        model: m.built.model,
    };
    let capitals = capitals_of(m.built.manufacturer);
    let n = letters(m.built.manufacturer, medium);
    let mut rest = Written::new();
    rest.push(&front_of(bus, m));
    rest.push_text(&capitals[..n]);
    rest.push_text(medium_key(medium));
    rest.push_text(fault_key(m.built.fault));
    rest
}
