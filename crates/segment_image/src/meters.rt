// A meter as 25 bytes.
ghost use Rattle.std.specs.Prelude.{◌≡◌};
ghost use Rattle.meter.specs.View.{plain_meter};
ghost use Rattle.segment_image.specs.MeterBytes.{last_by, whole_meter, decode_meter, last_byte_value, encode_meter};

use crate::METER;
use crate::copying::bytes_at;
use meter::{Built, Fault, Meter, Model, State};

// The last FCB by its byte, and its byte: no impl of `From` may lie between types that are both std's. The first is an
// `if`: a `match` of three arms keeps its jumps in the loop over an image's meters, and a `tidy` of 64 takes a sixth more
// time.
fn last(b: u8) -> Option<bool>
    ensures { result ≡ last_by b }
{
    if b == 0 { None } else { Some(b != 1) }
}

fn last_byte(last: Option<bool>) -> u8
    ensures { result ≡ last_byte_value last }
{
    match last {
        None => 0,
        Some(false) => 1,
        Some(true) => 2,
    }
}

// Fewer than 25 bytes count as none.
pub fn read_meter(bs: &[u8]) -> Meter
    ensures { plain_meter result ≡ decode_meter (whole_meter bs.now) }
{
    if bs.len() < METER {
        return Meter::default();
    }
    Meter {
        built: Built {
            id: u32::from_le_bytes(bytes_at(bs, 1)),
            manufacturer: u16::from_le_bytes(bytes_at(bs, 5)),
            version: bs[7],
            medium: bs[8],
            model: Model::from(bs[9]),
            fault: Fault::from(bs[10]),
            seed: u32::from_le_bytes(bytes_at(bs, 20)),
        },
        state: State {
            primary: bs[0],
            access: bs[11],
            selected: bs[16] != 0,
            part: bs[17],
            last: last(bs[18]),
            readouts: bs[19],
            hearing: bs[24] != 0,
            baud: u32::from_le_bytes(bytes_at(bs, 12)),
        },
    }
}

// The bytes of a meter, which mean it.
pub fn meter_bytes(m: Meter) -> [u8; METER]
    ensures { (result ≡ encode_meter (plain_meter m)) × (decode_meter result ≡ plain_meter m) }
{
    let Meter { built, state } = m;
    let id = built.id.to_le_bytes();
    let manufacturer = built.manufacturer.to_le_bytes();
    let baud = state.baud.to_le_bytes();
    let seed = built.seed.to_le_bytes();
    [
        state.primary,
        id[0],
        id[1],
        id[2],
        id[3],
        manufacturer[0],
        manufacturer[1],
        built.version,
        built.medium,
        u8::from(built.model),
        u8::from(built.fault),
        state.access,
        baud[0],
        baud[1],
        baud[2],
        baud[3],
        u8::from(state.selected),
        state.part,
        last_byte(state.last),
        state.readouts,
        seed[0],
        seed[1],
        seed[2],
        seed[3],
        u8::from(state.hearing),
    ]
}
