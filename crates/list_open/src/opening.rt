// Meters gathered one after another, from none on.
ghost use Rattle.std.specs.Prelude.{◌≡◌, length, drop};
ghost use Rattle.list.specs.Layout.{read_records};
ghost use Rattle.list.specs.ProgramReading.{listed_of};
ghost use Rattle.list_check.specs.Checked.{checked_of};
ghost use Rattle.list_open.specs.ProgramGather.{no_meters_value, at_index, Few, gathered_of};

use super::{METERS, Meters};
use list::{Listed, Reader};
use list_check::Values;
use list_check::check::check;
use list_check::refusal::Refusal;
use list_meter::fresh;
use meter::Meter;

// Before the first record: a place for each meter, and no meter yet.
#[tactic(auto, unfolding(crate::specs::ProgramGather::no_meters_value))]
pub fn begin() -> Meters
    ensures { result ≡ no_meters_value }
{
    Meters {
        meters: [Meter::default(); METERS],
        count: 0,
    }
}

// The values of the record with this index, or what it refuses the opening with.
fn values_at(index: usize, listed: Listed) -> Result<Values, Refusal>
    ensures { result ≡ at_index index (checked_of (listed_of listed.entry)) }
{
    check(listed).map_err(|failing| Refusal::AtRecord(failing, index))
}

// The list's meters, each stored in its place. The first record that fails refuses the opening. By `while let`, since the
// reader is no `Iterator`.
pub(crate) fn gather(list: &[u8], bus: u32, practice: bool) -> Result<Meters, Refusal>
    requires { Few list.now }
    ensures { result ≡ gathered_of bus practice (read_records (length list.now) (drop 3 list.now)) }
{
    let mut reader = Reader::new(list);
    let mut opened = begin();
    while let Some(listed) = reader.next()? {
        let values = values_at(opened.count, listed)?;
        opened.meters[opened.count] = fresh(values, bus, practice);
        opened.count += 1;
    }
    Ok(opened)
}
