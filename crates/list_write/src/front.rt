// The parts of a record that have a fixed length.
ghost use Rattle.std.specs.Prelude.{◌≡◌, ◌+◌, ◌<◌};
ghost use Rattle.meter.specs.View.{plain_meter};
ghost use Rattle.list_write.specs.Record.{listed_baud, record_for};
ghost use Rattle.list_write.specs.ProgramRecord.{front_of_value};

use meter::Meter;

// 0 where it equals the bus baud.
#[tactic(auto, unfolding(crate::specs::Record::listed_baud))]
fn own_baud(bus: u32, baud: u32) -> u32
    ensures { result ≡ listed_baud bus baud }
{
    if baud == bus { 0 } else { baud }
}

// The character of a digit.
fn digit(d: u32) -> u8
    requires { d < 16 }
    ensures { result ≡ 0x30 + d }
{
    b'0' + (d as u8)
}

// Primary, version, own baud, and the id after its length: a line a digit, as the definition has them.
pub(crate) fn front_of(bus: u32, m: Meter) -> [u8; 15]
    ensures { result ≡ front_of_value (record_for bus (plain_meter m)) }
{
    let id = m.built.id;
    let [b0, b1, b2, b3] = own_baud(bus, m.state.baud).to_be_bytes();
    [
        m.state.primary,
        m.built.version,
        b0,
        b1,
        b2,
        b3,
        8,
        digit(id / 0x10000000 % 16),
        digit(id / 0x1000000 % 16),
        digit(id / 0x100000 % 16),
        digit(id / 0x10000 % 16),
        digit(id / 0x1000 % 16),
        digit(id / 0x100 % 16),
        digit(id / 0x10 % 16),
        digit(id % 16),
    ]
}
