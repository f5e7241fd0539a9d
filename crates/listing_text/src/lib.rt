// What the listing program writes for what it reads.
#![tactic(auto)]

ghost use Rattle.std.specs.Prelude.{◌≡◌};
ghost use Rattle.search.specs.Site.{october};
ghost use Rattle.listing_text.specs.Listing.{list_in, listing_of};
ghost use Rattle.listing_text.specs.ProgramListing.{OpensSite};
ghost use Rattle.listing_text.specs.Text.{Prints};

use laws::answer::Numbered;
use list_check::refusal::Refusal;
use search::{EntryRecord, search};
use segment::{METERS, Segment};
use segment_image::IMAGE;
use time_clock::Clock;

mod page; // page.rt: a text at the start of lent bytes
mod refusal; // refusal.rt: the text for a refused list
mod report; // report.rt: the text for the entries of a search

use page::Page;

// Line 1 has at most 38 bytes, an entry's line at most 25.
pub const TEXT: usize = 38 + 25 * METERS;

// Input past so many bytes is not read.
pub const INPUT: usize = 65536;

fn clock() -> Clock
    ensures { result ≡ october }
{
    Clock {
        now: 0.0,
        year: 2026,
        month: 10,
        day: 1,
        hour: 0,
        minute: 0,
    }
}

// The opening of a new segment, in its image.
fn open_list(image: &mut [u8; IMAGE], input: &[u8]) -> Result<(), Refusal>
    ensures { OpensSite (list_in input.now) result image.new }
{
    segment_image::write_image(Segment::new(), image);
    let read = &input[..INPUT.min(input.len())];
    segment_calls::open(image, read, 2400, false, 0.0)
}

fn list_into(input: &[u8], page: &mut Page)
    requires { page.old.len ≡ 0 }
    ensures { Prints page.old.bytes (listing_of input.now) page.new.len page.new.bytes }
{
    let mut image = [0u8; IMAGE];
    if let Err(refusal) = open_list(&mut image, input) {
        return page.push_refusal(refusal.number());
    }
    let mut records = [EntryRecord::default(); METERS];
    match search(&mut image, clock(), 10000, &mut records) {
        Ok(found) => page.push_report(&records[..found.count.min(METERS)], found.probes),
        Err(_) => page.push_report(&[], 0),
    }
}

// What the listing program writes for what it reads: the text at the start of the lent bytes, and its length. The page
// has the bytes by value while it is written, and gives them back. The bytes are lent and no `Vec`: allocating would
// bring further C contracts into what is trusted.
pub fn listing(input: &[u8], out: &mut [u8; TEXT]) -> usize
    ensures { Prints out.old (listing_of input.now) result out.new }
{
    let mut page = Page {
        bytes: *out,
        len: 0,
    };
    list_into(input, &mut page);
    *out = page.bytes;
    page.len
}
