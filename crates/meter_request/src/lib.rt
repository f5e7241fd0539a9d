// A meter that is asked for its readout: which part it sends, and what it counts.
#![tactic(auto)]

ghost use Rattle.std.specs.Prelude.{◌≡◌};
ghost use Rattle.meter_request.specs.Asking.{next_part_value, part_now_value, readouts_now_value, asked};
ghost use Rattle.meter.specs.View.{plain_meter};

use meter::{Fault, Meter, Model};

fn next_part(model: Model, part: u8) -> u8
    ensures { result ≡ next_part_value model part }
{
    match model {
        Model::Heat => (part % 2 + 1) % 2,
        _ => 0,
    }
}

// A changed FCB asks for the next part, an equal one for the same part again.
fn part_now(model: Model, last: Option<bool>, fcb: bool, part: u8) -> u8
    ensures { result ≡ part_now_value model last fcb part }
{
    match last {
        None => 0,
        Some(before) if before == fcb => part,
        Some(_) => next_part(model, part),
    }
}

// The count stops at 3, from which on the reply is the same.
fn readouts_now(f: Fault, n: u8) -> u8
    ensures { result ≡ readouts_now_value f n }
{
    if f == Fault::TooMany {
        n.saturating_add(1).min(3)
    } else {
        n
    }
}

// The meter that answers a REQ_UD2 with this FCB.
#[tactic(auto, unfolding(crate::specs::Asking::asked))]
pub fn asked(m: Meter, fcb: bool) -> Meter
    ensures { plain_meter result ≡ asked fcb (plain_meter m) }
{
    let state = m.state;
    let part = part_now(m.built.model, state.last, fcb, state.part);
    let readouts = readouts_now(m.built.fault, state.readouts);
    m.with_standing(part, Some(fcb))
        .with_counters(state.access.wrapping_add(1), readouts)
}
