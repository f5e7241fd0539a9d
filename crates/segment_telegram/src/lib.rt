// What one telegram does to a segment, in its image.
#![tactic(auto)]

ghost use Rattle.std.specs.Prelude.{◌≡◌, List, ℕ, ◌≤◌};
ghost use Rattle.frame.specs.View.{telegram_of};
ghost use Rattle.segment_replies.specs.ProgramJoining.{reply_most, bytes_kept};
ghost use Rattle.segment_image.specs.Image.{decode_image};
ghost use Rattle.segment_places.specs.ProgramBecomes.{Queues};
ghost use Rattle.segment_telegram.specs.Handled.{to_broadcast_value, handled};
ghost use Rattle.segment_telegram.specs.ProgramComes.{Handles};

use frame::Frame;
use segment_image::IMAGE;
use segment_places::queue;
use segment_places::queue::QueueFull;
use segment_replies::Joining;
use time_clock::Clock;

mod sweep; // sweep.rt: the meters hear a telegram

// A telegram to address FF, after which no reply joins the queue.
fn to_broadcast(frame: Frame<'_>) -> bool
    ensures { result ≡ to_broadcast_value (telegram_of frame.entry) }
{
    match frame {
        Frame::Ack => false,
        Frame::Short { address, .. } | Frame::Long { address, .. } => {
            address == frame::ADDR_BROADCAST
        }
    }
}

// The joined reply joins the queue, if there is room for it.
fn queue_reply(image: &mut [u8; IMAGE], joining: &Joining) -> Result<(), QueueFull>
    requires { joining.now.len ≤ reply_most }
    ensures { Queues (bytes_kept joining.now) image.old result image.new }
{
    if joining.acks {
        queue::append_same(image, joining.count, frame::ACK)
    } else {
        queue::append(image, &joining.bytes[..joining.len])
    }
}

// One telegram. Where its reply does not fit the queue, what the meters did is left as it is.
pub fn handle(image: &mut [u8; IMAGE], frame: Frame<'_>, clock: Clock) -> Result<(), QueueFull>
    ensures { Handles (telegram_of frame.entry) (handled (telegram_of frame.entry) clock (decode_image image.old).input (decode_image image.old)) image.old result image.new }
{
    let joining = sweep::sweep(image, frame, clock);
    if to_broadcast(frame) {
        Ok(())
    } else {
        queue_reply(image, &joining)
    }
}
