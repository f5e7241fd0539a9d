// The meters of an image hear a telegram, one after the other.
ghost use Rattle.std.specs.Prelude.{◌≡◌, ◌≤◌, ◌<◌, IfSome};
ghost use Rattle.std.specs.Option.{unwrap_or};
ghost use Rattle.frame.specs.Frame.{Telegram};
ghost use Rattle.frame.specs.View.{telegram_of};
ghost use Rattle.time_seconds.specs.Seconds.{elapsed_of_value};
ghost use Rattle.meter_step.specs.Hear.{hear};
ghost use Rattle.meter_concern.specs.ProgramConcern.{concerns_by};
ghost use Rattle.meter_concern.specs.ProgramSeeking.{Seeks};
ghost use Rattle.segment_image.specs.Image.{decode_image};
ghost use Rattle.segment_places.specs.ProgramBecomes.{meter_in};
ghost use Rattle.segment_telegram.specs.ProgramSweep.{concerns_meter, Skips, MeterHears, Sweeps};

use frame::Frame;
use meter_concern::Seeking;
use meter_step::{Answer, Heard};
use segment_image::{IMAGE, METER, METERS_AT};
use segment_places::{head, meters};
use segment_replies::Joining;
use time_clock::Clock;

// Whether the meter at the place i is one of those sought: its first eight bytes, as one number, and its selection tell.
fn is_sought(q: Seeking, image: &[u8; IMAGE], i: usize) -> bool
    requires { i < 64 }
    ensures { (t : Telegram) → Seeks (concerns_by t) q → result ≡ concerns_meter t (meter_in i image.now) }
{
    let p = METERS_AT + METER * i;
    let mut first = [0; 8];
    first.copy_from_slice(&image[p..p + 8]);
    q.seeks(u64::from_le_bytes(first), image[p + 16] != 0)
}

// The first place from `from` on whose meter is sought, before the end. By a loop, whose invariant is what the clause says of
// the places passed by.
fn next_sought(q: Seeking, image: &[u8; IMAGE], from: usize, end: usize) -> Option<usize>
    requires { (from ≤ end) × (end ≤ 64) }
    ensures skips { Skips q image.now from end (unwrap_or result end) }
    ensures before { IfSome result (λ i. i < end) }
{
    for i in from..end {
        if is_sought(q, image, i) {
            return Some(i);
        }
    }
    None
}

// Worked out where a readout needs it, and in no other telegram.
fn elapsed_of(image: &[u8; IMAGE], clock: Clock) -> f64
    ensures { result ≡ elapsed_of_value clock.now (decode_image image.now).origin }
{
    time_seconds::elapsed(clock.now, head::origin_of(image))
}

// The meter at the place i hears a telegram, and its reply joins those before it.
fn step(
    image: &mut [u8; IMAGE],
    i: usize,
    joining: &mut Joining,
    bus: u32,
    frame: Frame<'_>,
    clock: Clock,
)
    requires { joining.old.count < 4096 }
    ensures { MeterHears (hear bus (telegram_of frame.entry) (elapsed_of_value clock.now (decode_image image.old).origin) clock) i image.old joining.old image.new joining.new }
{
    let m = meters::meter_at(image, i);
    let Heard { meter, answer } = meter_step::hear(m, bus, frame);
    meters::put_meter(image, i, meter);
    match answer {
        Answer::Silent => {}
        Answer::Ack => joining.join_ack(),
        Answer::Readout => {
            joining.join(meter_reply::readout(meter, elapsed_of(image, clock), clock))
        }
    }
}

// Every meter that the telegram concerns hears it; the others need no step, and are passed by in a loop of their own
// (`next_sought`). Their replies, joined.
pub(crate) fn sweep(image: &mut [u8; IMAGE], frame: Frame<'_>, clock: Clock) -> Joining
    ensures { Sweeps (telegram_of frame.entry) clock image.old image.new result }
{
    let q = meter_concern::sought_by(frame);
    let bus = head::baud_of(image);
    let end = head::count_of(image);
    let mut joining = Joining::new();
    let mut from = 0;
    while let Some(i) = next_sought(q, image, from, end) {
        step(image, i, &mut joining, bus, frame, clock);
        from = i + 1;
    }
    joining
}
