// Telegrams out of the waiting input and the piece, handled one after the other.
ghost use Rattle.std.specs.Prelude.{◌/◌, length};
ghost use Rattle.segment.specs.Plain.{with_input};
ghost use Rattle.segment_image.specs.Image.{decode_image};
ghost use Rattle.segment_send.specs.Steps.{handled_all};
ghost use Rattle.segment_telegram.specs.ProgramComes.{Comes};
ghost use Rattle.segment_send.specs.ProgramSend.{ComesOrStays};

use frame::ParseOutcome;
use segment::QUEUE;
use segment_image::IMAGE;
use segment_places::queue::QueueFull;
use segment_places::{head, input};
use segment_replies::REPLY;
use segment_telegram::handle;
use time_clock::Clock;

// The shortest telegram that anybody replies to.
const SHORTEST: usize = 5;

// Telegrams in turn. An incomplete one waits, an invalid one discards all remaining input. Where the queue would be
// too long, what was done until then is left as it is.
// A loop over a position: how far it goes on, and whether, only parsing tells.
fn handle_in_turn(image: &mut [u8; IMAGE], bytes: &[u8], clock: Clock) -> Result<(), QueueFull>
    ensures { Comes (handled_all clock (with_input bytes.now (decode_image image.old))) (length bytes.now / 5) image.old result image.new }
{
    let mut pos: usize = 0;
    loop {
        let rest = &bytes[pos..];
        match frame::parse(rest) {
            ParseOutcome::Complete { frame, used } => {
                handle(image, frame, clock)?;
                pos += used;
            }
            ParseOutcome::Incomplete { due: _ } => {
                input::keep(image, rest);
                return Ok(());
            }
            ParseOutcome::Invalid(_) => {
                input::discard(image);
                return Ok(());
            }
        }
    }
}

// The image is kept, and put back where the queue would be too long.
fn handle_or_undo(image: &mut [u8; IMAGE], bytes: &[u8], clock: Clock) -> Result<(), QueueFull>
    ensures { ComesOrStays (handled_all clock (with_input bytes.now (decode_image image.old))) image.old result image.new }
{
    let before = *image;
    if let Err(full) = handle_in_turn(image, bytes, clock) {
        *image = before;
        return Err(full);
    }
    Ok(())
}

// Where there is room for as many replies as there can be, nothing needs to be kept.
pub(crate) fn handle_all(
    image: &mut [u8; IMAGE],
    bytes: &[u8],
    clock: Clock,
) -> Result<(), QueueFull>
    ensures { ComesOrStays (handled_all clock (with_input bytes.now (decode_image image.old))) image.old result image.new }
{
    let queued = head::queued_of(image);
    if bytes.len() / SHORTEST <= (QUEUE - queued) / REPLY {
        return handle_in_turn(image, bytes, clock);
    }
    handle_or_undo(image, bytes, clock)
}
