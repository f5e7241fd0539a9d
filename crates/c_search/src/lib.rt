// A search over an image, as numbers and bytes.
#![tactic(auto)]

ghost use Rattle.segment_image.specs.Image.{decode_image};
ghost use Rattle.c_search.specs.Searches.{search_by, Searches};

use laws::answer::Numbered;
use search::{EntryRecord, search};
use segment::METERS;
use segment_image::IMAGE;
use time_clock::Clock;

mod entries; // entries.rt: the entries of a search and its summary, as bytes

// Searches with an allowance of probes; 16 lent bytes for each entry.
// 14: a clock field out of range; 16: input or queue not empty; 17: fewer entries lent than meters opened.
// The search is lent records of this function's own: as many as there is room for, and no more than a segment has
// meters.
pub fn search_image(
    image: &mut [u8; IMAGE],
    clock: Clock,
    allowance: u32,
    entries: &mut [u8],
    summary: &mut [u8; 12],
) -> u32
    ensures { Searches (search_by clock allowance entries.old (decode_image image.old)) result image.old image.new entries.old entries.new summary.old summary.new }
{
    let room = entries.len() / 16;
    let mut records = [EntryRecord::default(); METERS];
    match search(image, clock, allowance, &mut records[..room.min(METERS)]) {
        Ok(found) => {
            entries::write_entries(&records, found.count, entries);
            *summary = entries::summary_of(found.count, found.probes, found.spent);
            laws::refused::NOT_REFUSED
        }
        Err(error) => error.number(),
    }
}
