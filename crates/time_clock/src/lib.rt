// The clock that a call is given.
#![tactic(auto)]

ghost use Rattle.std.specs.Prelude.{◌≡◌};
ghost use Rattle.time_clock.specs.Fields.{clock_at_value, good_clock_value};

// Seconds, and the date and time of day that meters write.
#[derive(Clone, Copy)]
pub struct Clock {
    pub now: f64,
    pub year: u32,
    pub month: u32,
    pub day: u32,
    pub hour: u32,
    pub minute: u32,
}

// A clock with every field in range: year 1970..9999, month 1..12, day 1..31, hour 0..23, minute 0..59.
#[tactic(auto, unfolding(crate::specs::Fields::good_clock_value))]
pub fn good_clock(clock: Clock) -> bool
    ensures { result ≡ good_clock_value clock }
{
    matches!(
        clock,
        Clock {
            year: 1970..=9999,
            month: 1..=12,
            day: 1..=31,
            hour: 0..=23,
            minute: 0..=59,
            ..
        }
    )
}

// A clock by the six numbers that the C interface gives.
pub fn clock_at(secs: f64, year: u32, month: u32, day: u32, hour: u32, minute: u32) -> Clock
    ensures { result ≡ clock_at_value secs year month day hour minute }
{
    Clock {
        now: secs,
        year,
        month,
        day,
        hour,
        minute,
    }
}
