// The meters that an opening of a meter list begins with.
#![tactic(auto)]

pub mod opening; // opening.rt: fresh meters gathered one after another

ghost use Rattle.list_open.specs.Given.{MetersGiven};

use list::layout::layout;
use list_check::refusal::Refusal;
use list_check::tables::is_rate;
use meter::Meter;
use opening::gather;

// At most so many meters.
pub const METERS: usize = 64;

// The first `count` of `meters`: an array, since nothing here may lie on the heap, and blank behind them, as a segment's.
#[derive(Clone, Copy)]
pub struct Meters {
    pub meters: [Meter; METERS],
    pub count: usize,
}

// A list opened at a baud, with the practice flag (two parameters, as in the C interface): 1, 2 and 3 by the whole layout,
// then 4 to 9 by the first record that fails, then 10.
pub fn meters_of(list: &[u8], bus: u32, practice: bool) -> Result<Meters, Refusal>
    ensures { MetersGiven list.now bus practice result }
{
    let records = layout(list)?;
    if METERS < records {
        return Err(Refusal::Capacity);
    }
    let opened = gather(list, bus, practice)?;
    if is_rate(bus) {
        Ok(opened)
    } else {
        Err(Refusal::Baud)
    }
}
