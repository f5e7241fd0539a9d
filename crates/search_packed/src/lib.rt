// The walk over packed meters: each is two numbers, its key and its mark (marks.rt).
#![tactic(auto)]

ghost use Rattle.std.specs.Prelude.{◌≡◌};
ghost use Rattle.search_packed.specs.ProgramPacked.{walking_of, walk_all_value};

use list_open::METERS;
pub use walk::Walk;

pub mod bits; // bits.rt: the places of a mark
mod marks; // marks.rt: a key and a mark, and the sweeps over all of them
mod walk; // walk.rt: probe and row

// The walk from the mask with no digit: all eight are unknown, so that it is the mask of all ids.
pub fn walk_all(keys: [u32; METERS], marks: [u32; METERS], allowance: u32) -> Walk
    ensures { walking_of result ≡ walk_all_value keys marks allowance }
{
    let mut walk = Walk {
        keys,
        marks,
        allowance,
        entries: [0; METERS],
        found: 0,
        probes: 0,
        spent: false,
    };
    walk.probe(8, 0, 0xFFFFFFFF);
    walk
}
