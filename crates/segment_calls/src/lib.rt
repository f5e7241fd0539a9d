// Opening, receive, clear and baud change, on a segment in its image. The image is a parameter of its own, here and in all
// crates: C lends its bytes, and clauses speak of them.
#![tactic(auto)]

ghost use Rattle.std.specs.Prelude.{◌≡◌};
ghost use Rattle.laws.specs.Refusal.{refused_baud};
ghost use Rattle.list_check.specs.Refusals.{refusal_number_value, refusal_index_value};
ghost use Rattle.segment.specs.Calls;
ghost use Rattle.segment_image.specs.Image.{decode_image};
ghost use Rattle.segment_image.specs.Answers.{DoneImage, LeftImage, OpenedImage, ReceivedImage};
ghost use Rattle.segment_calls.specs.View.{changing_number_value};

use laws::answer::Numbered;
use laws::refused;
use list_check::refusal::Refusal;
use segment::Segment;
use segment_image::IMAGE;
use segment_places::{head, input, queue};

// As many bytes as a receive hands out, at the most.
const HANDED_OUT: usize = 32;

// An accepted opening builds the segment anew; a refused one leaves the segment in use. Baud, practice flag and origin are
// parameters of their own, as in the C interface.
pub fn open(
    image: &mut [u8; IMAGE],
    list: &[u8],
    baud: u32,
    practice: bool,
    origin: f64,
) -> Result<(), Refusal>
    ensures { OpenedImage list.now baud practice origin (refusal_number_value result) (refusal_index_value result) image.old image.new }
{
    let meters = list_open::meters_of(list, baud, practice)?;
    segment_image::write_image(Segment::opened(meters, baud, origin), image);
    Ok(())
}

// Hands out the least of 32, the lent length and the queued bytes; lent bytes past these stay.
pub fn receive(image: &mut [u8; IMAGE], lent: &mut [u8]) -> usize
    ensures { ReceivedImage (Calls.receive lent.old (decode_image image.old)) result lent.new image.old image.new }
{
    let n = queue::hand_out(image, HANDED_OUT, lent);
    queue::take_out(image, n);
    n
}

// Empties the queue alone.
pub fn clear(image: &mut [u8; IMAGE])
    ensures { LeftImage (Calls.clear (decode_image image.old)) image.old image.new }
{
    queue::empty(image)
}

// The baud is none of the eight rates.
#[derive(Clone, Copy, PartialEq, Eq, Debug)]
pub struct NoRate;

impl Numbered for NoRate {
    ghost number_of = { λ e. refused_baud };

    fn number(self) -> u32 {
        refused::BAUD
    }
}

// Sets the bus baud and empties the input, nothing else.
pub fn set_baud(image: &mut [u8; IMAGE], baud: u32) -> Result<(), NoRate>
    ensures { DoneImage (Calls.change_baud baud (decode_image image.old)) (changing_number_value result) image.old image.new }
{
    if !list_check::tables::is_rate(baud) {
        return Err(NoRate);
    }
    head::put_baud(image, baud);
    input::discard(image);
    Ok(())
}
