// What a telegram does to a simulated meter, and what the meter answers.
#![tactic(auto)]

ghost use Rattle.std.specs.Prelude.{◌≡◌, Float};
ghost use Rattle.frame.specs.View.{telegram_of};
ghost use Rattle.time_clock.specs.declared.Clock.{Clock};
ghost use Rattle.meter.specs.View.{plain_meter};
ghost use Rattle.meter_step.specs.Hear.{hear};
ghost use Rattle.meter_step.specs.View.{heard_of};

use frame::Frame;
use meter::Meter;

mod steps; // steps.rt: what each telegram does to a meter that listens
mod telegrams; // telegrams.rt: which telegram it is, and whether it is for a meter

// No reply, one E5, or the readout of the meter as it is then: three kinds, which no Option has. `readout` makes the
// bytes of a readout.
#[derive(Clone, Copy, PartialEq, Eq, Debug)]
pub enum Answer {
    Silent,
    Ack,
    Readout,
}

// A meter after a telegram, and its answer.
#[derive(Clone, Copy, PartialEq, Eq, Debug)]
pub struct Heard {
    pub meter: Meter,
    pub answer: Answer,
}

// What one telegram does to one meter: only a meter at the bus's rate listens.
#[tactic(auto, unfolding(crate::specs::Hear::hear, crate::specs::Hear::listens))]
pub fn hear(m: Meter, bus: u32, frame: Frame<'_>) -> Heard
    ensures { (e : Float) (k : Clock) → heard_of e k result ≡ hear bus (telegram_of frame.entry) e k (plain_meter m) }
{
    if m.state.baud == bus {
        match frame {
            Frame::Ack => steps::quiet(m),
            Frame::Short { control, address } => steps::hear_short(m, control, address),
            Frame::Long {
                control,
                address,
                ci,
                data,
            } => steps::hear_long(m, control, address, ci, data),
        }
    } else {
        steps::quiet(m)
    }
}
