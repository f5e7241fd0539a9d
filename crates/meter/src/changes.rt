// A meter with some of its parts changed, and whether it hears.
ghost use Rattle.std.specs.Prelude.{◌≡◌};
ghost use Rattle.meter.specs.Meter.{flaky, hears, offered, reset, with_primary_value, with_baud_value, with_selected_value, with_hears_next, with_standing_value, with_counters_value};
ghost use Rattle.meter.specs.View.{plain_meter};

use super::{Fault, Meter, State};

fn is_flaky(f: Fault) -> bool
    ensures { result ≡ flaky f }
{
    f == Fault::Flaky
}

impl Meter {
    pub fn with_primary(mut self, primary: u8) -> Meter
        ensures { plain_meter result ≡ with_primary_value primary (plain_meter self) }
    {
        self.state.primary = primary;
        self
    }

    pub fn with_baud(mut self, baud: u32) -> Meter
        ensures { plain_meter result ≡ with_baud_value baud (plain_meter self) }
    {
        self.state.baud = baud;
        self
    }

    pub fn with_selected(mut self, selected: bool) -> Meter
        ensures { plain_meter result ≡ with_selected_value selected (plain_meter self) }
    {
        self.state.selected = selected;
        self
    }

    fn with_hearing(mut self, hearing: bool) -> Meter
        ensures { plain_meter result ≡ with_hears_next hearing (plain_meter self) }
    {
        self.state.hearing = hearing;
        self
    }

    // Another part, and another last FCB. The state is made anew: with an assignment for each, a telegram that commands 64
    // meters takes more than twice the time.
    pub fn with_standing(mut self, part: u8, last: Option<bool>) -> Meter
        ensures { plain_meter result ≡ with_standing_value (part, last) (plain_meter self) }
    {
        self.state = State {
            part,
            last,
            ..self.state
        };
        self
    }

    // Another access number, and another count of readouts.
    pub fn with_counters(mut self, access: u8, readouts: u8) -> Meter
        ensures { plain_meter result ≡ with_counters_value (access, readouts) (plain_meter self) }
    {
        self.state.access = access;
        self.state.readouts = readouts;
        self
    }

    // Part and last FCB are set back.
    pub fn reset(self) -> Meter
        ensures { plain_meter result ≡ reset (plain_meter self) }
    {
        self.with_standing(0, None)
    }

    // Does the next telegram arrive? Of a flaky meter every second one.
    #[tactic(auto, unfolding(crate::specs::Meter::hears))]
    pub fn hears(self) -> bool
        ensures { result ≡ hears (plain_meter self) }
    {
        if is_flaky(self.built.fault) {
            self.state.hearing
        } else {
            true
        }
    }

    // The meter once a telegram was put to it.
    #[tactic(auto, unfolding(crate::specs::Meter::offered))]
    pub fn offered(self) -> Meter
        ensures { plain_meter result ≡ offered (plain_meter self) }
    {
        if is_flaky(self.built.fault) {
            self.with_hearing(!self.state.hearing)
        } else {
            self
        }
    }
}
