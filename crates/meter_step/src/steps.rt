// What each telegram does to a meter that listens. The clauses speak of every time and clock: a readout is made of the meter
// later. Control, address, CI and data are parameters of their own, as in the definitions.
ghost use Rattle.std.specs.Prelude.{◌≡◌, Float};
ghost use Rattle.frame.specs.Frame.{short, long};
ghost use Rattle.time_clock.specs.declared.Clock.{Clock};
ghost use Rattle.meter.specs.View.{plain_meter};
ghost use Rattle.meter_step.specs.Hear.{E5, quiet, answers, nke, request, select, commanded, listens};
ghost use Rattle.meter_step.specs.View.{heard_of};

use super::{Answer, Heard, telegrams};
use meter::Meter;
use meter_request::asked;

// The meter with no reply.
pub(crate) fn quiet(meter: Meter) -> Heard
    ensures { (e : Float) (k : Clock) → heard_of e k result ≡ quiet (plain_meter meter) }
{
    Heard {
        meter,
        answer: Answer::Silent,
    }
}

// The meter with one E5.
fn acknowledged(meter: Meter) -> Heard
    ensures { (e : Float) (k : Clock) → heard_of e k result ≡ answers E5 (plain_meter meter) }
{
    Heard {
        meter,
        answer: Answer::Ack,
    }
}

// SND_NKE at a target.
#[tactic(auto, unfolding(crate::specs::Hear::nke))]
fn nke(m: Meter, address: u8) -> Heard
    ensures { (e : Float) (k : Clock) → heard_of e k result ≡ nke address (plain_meter m) }
{
    if !m.hears() {
        quiet(m.offered())
    } else if telegrams::deselects(address) {
        acknowledged(m.offered().reset().with_selected(false))
    } else {
        acknowledged(m.offered().reset())
    }
}

// REQ_UD2 at a target.
#[tactic(auto, unfolding(crate::specs::Hear::request))]
fn request(m: Meter, fcb: bool) -> Heard
    ensures { (e : Float) (k : Clock) → heard_of e k result ≡ request fcb e k (plain_meter m) }
{
    if m.hears() {
        Heard {
            meter: asked(m.offered(), fcb),
            answer: Answer::Readout,
        }
    } else {
        quiet(m.offered())
    }
}

// A select: a mask that misses is not put to the meter, so a flaky one does not count it.
#[tactic(auto, unfolding(crate::specs::Hear::select))]
fn select(m: Meter, data: &[u8]) -> Heard
    ensures { (e : Float) (k : Clock) → heard_of e k result ≡ select «data».now (plain_meter m) }
{
    if !meter_select::matches(m, data) {
        quiet(m.with_selected(false))
    } else if m.hears() {
        acknowledged(m.offered().with_selected(true).reset())
    } else {
        quiet(m.offered().with_selected(false))
    }
}

// The other user data at a target: a new primary address, a new rate, a reset. ACK still goes out at the old rate.
#[tactic(auto, unfolding(crate::specs::Hear::commanded))]
fn command(m: Meter, ci: u8, data: &[u8]) -> Heard
    ensures { (e : Float) (k : Clock) → heard_of e k result ≡ commanded ci «data».now (plain_meter m) }
{
    if let Some(primary) = telegrams::new_primary(ci, data) {
        acknowledged(m.with_primary(primary))
    } else if let Some(rate) = telegrams::new_rate(ci, data) {
        acknowledged(m.with_baud(rate))
    } else if ci == frame::CI_APP_RESET {
        acknowledged(m.reset())
    } else {
        quiet(m)
    }
}

// ---- telegrams at a meter that listens

#[tactic(auto, unfolding(crate::specs::Hear::listens))]
pub(crate) fn hear_short(m: Meter, control: u8, address: u8) -> Heard
    ensures { (e : Float) (k : Clock) → heard_of e k result ≡ listens (short control address) e k (plain_meter m) }
{
    if !telegrams::is_target(m, address) {
        quiet(m)
    } else if telegrams::is_nke(control) {
        nke(m, address)
    } else if telegrams::is_req_ud2(control) {
        request(m, telegrams::fcb_of(control))
    } else {
        quiet(m)
    }
}

#[tactic(auto, unfolding(crate::specs::Hear::listens))]
pub(crate) fn hear_long(m: Meter, control: u8, address: u8, ci: u8, data: &[u8]) -> Heard
    ensures { (e : Float) (k : Clock) → heard_of e k result ≡ listens (long control address ci «data».now) e k (plain_meter m) }
{
    if !telegrams::is_snd_ud(control) {
        quiet(m)
    } else if telegrams::is_select(ci, address) {
        select(m, data)
    } else if telegrams::is_target(m, address) {
        command(m, ci, data)
    } else {
        quiet(m)
    }
}
