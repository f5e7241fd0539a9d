// The data of a meter's reply, by its model, and of an error.
#![tactic(auto)]

ghost use Rattle.std.specs.Prelude.{◌≡◌, [], ◌∷◌, ◌++◌, ◌+◌, ◌≤◌};
ghost use Rattle.meter_data.specs.ProgramData.{Puts};
ghost use Rattle.meter_data.specs.UserData.{fixed_data_value, head, clock_f, heat_first_value, heat_second_value, heat_now, electricity, water};
ghost use Rattle.meter.specs.View.{plain_meter};
ghost use Rattle.meter_data.specs.View.{held};

use meter::Meter;
use numbers::{bcd4, bcd6};
use records::{put, put_record};
use time_clock::Clock;
use time_dates::type_g;

mod data; // data.rt: the struct of a reply's data
mod records; // records.rt: bytes and records put behind data

pub use data::Data;

#[tactic(auto, unfolding(crate::specs::UserData::clock_f))]
fn time_of(clock: Clock) -> [u8; 4]
    ensures { result ≡ clock_f clock }
{
    time_dates::type_f(clock.year, clock.month, clock.day, clock.hour, clock.minute)
}

// Each of the following says how much room it needs: no two need the same.

// Heat, part 0, with the whole seconds since the origin.
fn heat_first(d: &mut Data, m: Meter, clock: Clock, tick: u32)
    requires { d.old.len + 63 ≤ 87 }
    ensures { Puts (held d.old) (heat_first_value tick clock (plain_meter m)) (held d.new) }
{
    // Counters of 32 bits: what is above is lost.
    let energy = (123_456 + tick / 10).wrapping_add(m.built.seed);
    let volume = (456_789 + tick / 4).wrapping_add(m.built.seed.wrapping_mul(3));
    put_record(d, 0x04, 0x06, energy.to_le_bytes()); // kWh
    put_record(d, 0x04, 0x14, volume.to_le_bytes()); // 0.01 m³
    put_record(d, 0x04, 0x2B, (12_345 + tick % 50).to_le_bytes()); // W
    put_record(d, 0x02, 0x59, 6523u16.to_le_bytes()); // 0.01 °C
    put_record(d, 0x02, 0x5D, 4210u16.to_le_bytes());
    put_record(d, 0x02, 0x61, 2313u16.to_le_bytes()); // 0.01 K
    put_record(d, 0x04, 0x3B, 1234u32.to_le_bytes()); // l/h
    put_record(d, 0x04, 0x6D, time_of(clock));
    put_record(d, 0x44, 0x06, 120_000u32.to_le_bytes()); // kWh at the due date
    put_record(d, 0x42, 0x6C, type_g(2026, 9, 30));
    put_record(d, 0x01, 0xFD, [0x17, 0x00]);
    put_record(d, 0x0C, 0x78, meter_identity::id_bytes(m.built.id));
    put(d, [0x1F]); // more data follow
}

// Heat, the other part.
fn heat_second(d: &mut Data)
    requires { d.old.len + 16 ≤ 87 }
    ensures { Puts (held d.old) heat_second_value (held d.new) }
{
    put(d, [0x84]);
    put_record(d, 0x01, 0x06, 110_000u32.to_le_bytes()); // kWh a year before
    put(d, [0x82]);
    put_record(d, 0x01, 0x6C, type_g(2025, 9, 30));
    put_record(d, 0x0F, 0x01, [0x02, 0x03]);
}

// Electricity; energy and power are of now, the others fixed.
fn electricity(d: &mut Data, m: Meter, tick: u32)
    requires { d.old.len + 62 ≤ 87 }
    ensures { Puts (held d.old) (electricity tick (plain_meter m)) (held d.new) }
{
    let seed = u64::from(m.built.seed);
    let t = u64::from(tick);
    put_record(d, 0x0E, 0x03, bcd6(12_345_678 + seed * 1000 + t)); // Wh
    put(d, [0x8E]);
    put_record(d, 0x10, 0x03, bcd6(8_000_000));
    put(d, [0x8E]);
    put_record(d, 0x20, 0x03, bcd6(4_345_678));
    put_record(d, 0x04, 0x2B, (2_300 + tick % 100).to_le_bytes()); // W
    put_record(d, 0x05, 0x2E, [0x00, 0x00, 0x60, 0x40]); // 3.5 kW as an f32
    put(d, [0x04]);
    put_record(d, 0xFD, 0x48, 2301u32.to_le_bytes()); // 0.1 V
    put(d, [0x04]);
    put_record(d, 0xFD, 0x59, 5123u32.to_le_bytes()); // mA
    // firmware "1.02", four bytes, backwards
    put_record(d, 0x0D, 0xFD, [0x0E, 0x04, 0x32, 0x30, 0x2E, 0x31]);
}

fn water(d: &mut Data, m: Meter, clock: Clock, tick: u32)
    requires { d.old.len + 22 ≤ 87 }
    ensures { Puts (held d.old) (water tick clock (plain_meter m)) (held d.new) }
{
    let seed = u64::from(m.built.seed);
    let t = u64::from(tick);
    put_record(d, 0x0C, 0x13, bcd4(123_456 + seed * 7 + t)); // l
    put_record(d, 0x4C, 0x13, bcd4(100_000));
    put_record(d, 0x42, 0x6C, type_g(2025, 12, 31));
    put_record(d, 0x04, 0x6D, time_of(clock));
}

// Id, manufacturer, version, medium, access number, status and signature.
fn head(m: Meter) -> Data
    ensures items { held result ≡ head (plain_meter m) }
    ensures len { result.len ≡ 12 }
{
    let mut d = Data::new();
    put(&mut d, meter_identity::id_bytes(m.built.id));
    put(&mut d, m.built.manufacturer.to_le_bytes());
    put(
        &mut d,
        [
            m.built.version,
            m.built.medium,
            m.state.access,
            0x00,
            0x00,
            0x00,
        ],
    );
    d
}

// The fixed data structure: id, access number, status, units (kWh and m³, medium heat) and two counters.
pub fn fixed_data(m: Meter, elapsed: f64) -> Data
    ensures { held result ≡ fixed_data_value elapsed (plain_meter m) }
{
    let seed = u64::from(m.built.seed);
    let mut d = Data::new();
    put(&mut d, meter_identity::id_bytes(m.built.id));
    put(&mut d, [m.state.access, 0x00, 0x05, 0x6C]);
    put(
        &mut d,
        bcd4(12_345 + seed + time_seconds::whole_u64(elapsed) / 60),
    );
    put(&mut d, bcd4(678));
    d
}

// What stands behind CI 72: the head, and the records. Meter, clock and time are parameters of their own, as in 01.
pub fn heat_data(m: Meter, clock: Clock, tick: u32) -> Data
    ensures { held result ≡ head (plain_meter m) ++ heat_now tick clock (plain_meter m) }
{
    let mut d = head(m);
    if m.state.part == 0 {
        heat_first(&mut d, m, clock, tick);
    } else {
        heat_second(&mut d);
    }
    d
}

pub fn electricity_data(m: Meter, tick: u32) -> Data
    ensures { held result ≡ head (plain_meter m) ++ electricity tick (plain_meter m) }
{
    let mut d = head(m);
    electricity(&mut d, m, tick);
    d
}

pub fn water_data(m: Meter, clock: Clock, tick: u32) -> Data
    ensures { held result ≡ head (plain_meter m) ++ water tick clock (plain_meter m) }
{
    let mut d = head(m);
    water(&mut d, m, clock, tick);
    d
}

// The data of an error: its code.
pub fn error_data(code: u8) -> Data
    ensures { held result ≡ code ∷ [] }
{
    let mut d = Data::new();
    put(&mut d, [code]);
    d
}
