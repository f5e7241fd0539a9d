// How dates and times are written into bytes. Year, month and day are numbers of their own: most dates here are fixed.
#![tactic(auto)]

ghost use Rattle.std.specs.Prelude.{◌≡◌};
ghost use Rattle.time_dates.specs.Dates.{type_g_value, type_f_value};

// A date: the day with the three low bits of the year of the century above it, and the month with the
// other four. Remainders are taken first, so that no sum wraps.
#[tactic(auto, unfolding(crate::specs::Dates::type_g_value))]
pub fn type_g(year: u32, month: u32, day: u32) -> [u8; 2]
    ensures { result ≡ type_g_value year month day }
{
    let y = year % 100;
    let low = (day % 256 + y % 8 * 32) % 256;
    let high = (month % 256 + y / 8 * 16) % 256;
    [low as u8, high as u8]
}

// Minute and hour before the date.
#[tactic(auto, unfolding(crate::specs::Dates::type_f_value, crate::specs::Dates::type_g_value))]
pub fn type_f(year: u32, month: u32, day: u32, hour: u32, minute: u32) -> [u8; 4]
    ensures { result ≡ type_f_value year month day hour minute }
{
    let [low, high] = type_g(year, month, day);
    [(minute % 256) as u8, (hour % 256) as u8, low, high]
}
