// The search: the meters of a segment's image are packed into numbers, the walk runs over these, and what it found
// and left is unpacked.
#![tactic(auto)]

ghost use Rattle.std.specs.Prelude.{◌≡◌};
ghost use Rattle.segment_image.specs.Image.{decode_image};
ghost use Rattle.search_packed.specs.ProgramPacked.{walking_of};
ghost use Rattle.search.specs.SearchCall.{is_empty};
ghost use Rattle.search.specs.View.{blank_record, error_number, SearchesInto, SearchesIn};
ghost use Rattle.search.specs.ProgramSearch.{Walks};

use laws::answer::Numbered;
use search_packed::{Walk, walk_all};
use segment::METERS;
use segment_image::IMAGE;
use segment_places::head;
use time_clock::{Clock, good_clock};

mod pack; // pack.rt: meters packed and unpacked, and entries as records

// The kinds of entries, by the numbers that they have in a C caller's records.
#[derive(Clone, Copy, PartialEq, Eq, Debug)]
pub enum Kind {
    One = 1,
    Mute = 2,
    Many = 3,
}

// An entry as the caller lends it, with the three parts that C's record has: its kind; the eight digits of its id or mask,
// most significant first, F for unknown; the E5 counted.
#[derive(Clone, Copy)]
pub struct EntryRecord {
    pub kind: Kind,
    pub digits: [u8; 8],
    pub count: u32,
}

// A record to lend, before an entry is written to it. By hand, since no kind is a default of `Kind`.
impl Default for EntryRecord {
    ghost is_default = { λ e. e ≡ blank_record };

    #[tactic(auto, unfolding(crate::specs::View::blank_record))]
    fn default() -> EntryRecord {
        EntryRecord {
            kind: Kind::One,
            digits: [0; 8],
            count: 0,
        }
    }
}

// Why a search is refused.
#[derive(Clone, Copy, PartialEq, Eq, Debug)]
pub enum SearchError {
    ClockOutOfRange,
    NotEmpty,
    TooFewLent,
}

impl Numbered for SearchError {
    ghost number_of = { error_number };

    fn number(self) -> u32 {
        match self {
            SearchError::ClockOutOfRange => laws::refused::CLOCK,
            SearchError::NotEmpty => laws::refused::NOT_EMPTY,
            SearchError::TooFewLent => laws::refused::ENTRIES,
        }
    }
}

// What a search answers; the entries found are in the first `count` of the lent records: not a part of these, so that the
// caller has them all back.
#[derive(Clone, Copy)]
pub struct Searched {
    pub count: usize,
    pub probes: u32,
    pub spent: bool,
}

// No input waits, and no reply is queued.
fn is_empty(image: &[u8; IMAGE]) -> bool
    ensures { result ≡ is_empty (decode_image image.now) }
{
    head::waiting_of(image) == 0 && head::queued_of(image) == 0
}

// The meters packed, the walk over them, and the meters put back as it leaves them.
fn walk_packed(image: &mut [u8; IMAGE], allowance: u32) -> Walk
    ensures { Walks image.old allowance (walking_of result) image.new }
{
    let packed = pack::packed_of(image);
    let walk = walk_all(packed.keys, packed.marks, allowance);
    pack::unmark_all(image, walk.marks);
    walk
}

// A search of the segment that an image means: the entries are written into the lent records, further ones stay. A
// refused search writes none. It checks 14, 16, 17.
pub fn search(
    image: &mut [u8; IMAGE],
    clock: Clock,
    allowance: u32,
    entries: &mut [EntryRecord],
) -> Result<Searched, SearchError>
    ensures { SearchesInto image.old clock allowance entries.old result entries.new image.new }
{
    if !good_clock(clock) {
        return Err(SearchError::ClockOutOfRange);
    }
    if !is_empty(image) {
        return Err(SearchError::NotEmpty);
    }
    if entries.len() < head::count_of(image) {
        return Err(SearchError::TooFewLent);
    }
    let walk = walk_packed(image, allowance);
    pack::write_records(&walk.entries[..walk.found], entries);
    Ok(Searched {
        count: walk.found,
        probes: walk.probes,
        spent: walk.spent,
    })
}

// What a search with its entries by value answers: the first `count` entries are those found.
#[derive(Clone, Copy)]
pub struct Entries {
    pub entries: [EntryRecord; METERS],
    pub count: usize,
    pub probes: u32,
    pub spent: bool,
}

// A search that gives its entries by value: it lends records of its own, as many as the caller has room for, and no more
// than a segment has meters.
pub fn search_listed(
    image: &mut [u8; IMAGE],
    clock: Clock,
    allowance: u32,
    room: usize,
) -> Result<Entries, SearchError>
    ensures { SearchesIn image.old clock allowance room result image.new }
{
    let mut records = [EntryRecord::default(); METERS];
    let found = search(image, clock, allowance, &mut records[..room.min(METERS)])?;
    Ok(Entries {
        entries: records,
        count: found.count,
        probes: found.probes,
        spent: found.spent,
    })
}
