// The walk over packed meters: probe and row call each other, each row with one unknown digit fewer.
// A mask with so many digits unknown is the ids from low to low + span, span = 16^unknown - 1.
// An entry is one number: the id with the E5 counted in front of it (one: 1), or a mute's mask, F for unknown, with 0.
ghost use Rattle.std.specs.Prelude.{◌≡◌, ℕ, ◌+◌, ◌*◌, ◌<◌, ◌≤◌};
ghost use Rattle.list_open.specs.Opening.{capacity};

use crate::marks::{read_selected, send_mask};
use list_open::METERS;

// A walk: the meters' keys and their marks, how many probes it may send, the entries it has found, and where it stands.
// The first `found` entries are those found: the memory is fixed, at most an entry a meter. Keys and marks are two arrays,
// so that a sweep is vectorised. That no more are found than have a place is a ghost field, and no `Model`: a struct whose view
// leaves out the places past `found` can't be `Copy`.
#[derive(Clone, Copy)]
pub struct Walk {
    pub keys: [u32; METERS],
    pub marks: [u32; METERS],
    pub allowance: u32,
    pub entries: [u64; METERS],
    pub found: usize,
    pub probes: u32,
    pub spent: bool,
    pub ghost fits: { found ≤ capacity },
}

impl Walk {
    ghost use Rattle.search_packed.specs.ProgramPacked.{walking_of, Asked, goes_to, packed_note, packed_walk, packed_row, span_of};

    // One entry more. There is always room for it: entries are never more than meters (search_walk,
    // proofs/Fits.antt, `walk-fits-meters`).
    fn push(&mut self, entry: u64)
        ensures { walking_of self.new ≡ goes_to (walking_of self.old) (packed_note entry (walking_of self.old).run.marks (walking_of self.old).run) }
    {
        if self.found < METERS {
            self.entries[self.found] = entry;
            self.found += 1;
        }
    }

    // One probe, counted, unless the allowance is spent; where one meter answers, it is read. It gives the E5 counted
    // where several do.
    fn probe_and_read(&mut self, low: u32, high: u32) -> Option<u32>
        requires { low ≤ high }
        ensures { Asked (walking_of self.old) low high result (walking_of self.new) }
    {
        self.spent = self.allowance <= self.probes;
        if self.spent {
            return None;
        }
        self.probes += 1;
        match send_mask(&self.keys, &mut self.marks, low, high) {
            0 => None,
            1 => {
                let entry = read_selected(&self.keys, &mut self.marks, u64::from(high));
                self.push(entry);
                None
            }
            several => Some(several),
        }
    }

    // One probe with so many digits unknown, its reading or its row, and all rows below.
    #[cycle(probe_row)]
    pub(crate) fn probe(&mut self, unknown: usize, low: u32, span: u32)
        requires { (span ≡ span_of unknown) × (low + span < 0x100000000) }
        ensures { walking_of self.new ≡ goes_to (walking_of self.old) (packed_walk self.old.keys self.old.allowance unknown low (walking_of self.old).run) }
    {
        match self.probe_and_read(low, low + span) {
            None => {}
            Some(many) if unknown == 0 => self.push(u64::from(many) * 0x100000000 + u64::from(low)),
            Some(_) => self.row(unknown - 1, low, span / 16),
        }
    }

    // Ten probes with one digit more, 0 to 9; below digits stay unknown in each. `first` is added to, and not multiplied.
    #[cycle(probe_row)]
    fn row(&mut self, below: usize, low: u32, span: u32)
        requires { (span ≡ span_of below) × (low + 16 * span + 15 < 0x100000000) }
        ensures { walking_of self.new ≡ goes_to (walking_of self.old) (packed_row (packed_walk self.old.keys self.old.allowance below) (span + 1) 10 low (walking_of self.old).run) }
    {
        let mut first = low;
        for _digit in 0..10u32 {
            self.probe(below, first, span);
            first += span + 1;
        }
    }
}
