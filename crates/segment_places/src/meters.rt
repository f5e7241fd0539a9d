// A meter of an image.
ghost use Rattle.std.specs.Prelude.{◌≡◌, ◌<◌, length, set};
ghost use Rattle.meter.specs.View.{plain_meter};
ghost use Rattle.segment.specs.Plain.{with_meters};
ghost use Rattle.segment_image.specs.Image.{decode_image};
ghost use Rattle.segment_places.specs.ProgramBecomes.{meter_in, Becomes};

use crate::{head, place};
use meter::Meter;
use segment::METERS;
use segment_image::{IMAGE, METER, METERS_AT, meters};

fn read_at(image: &[u8; IMAGE], i: usize) -> Meter
    requires { i < 64 }
    ensures { plain_meter result ≡ meter_in i image.now }
{
    let p = METERS_AT + METER * i;
    meters::read_meter(&image[p..p + METER])
}

// The meter at the place i. Past the last place it is a blank one.
pub fn meter_at(image: &[u8; IMAGE], i: usize) -> Meter
    ensures { plain_meter result ≡ meter_in i image.now }
{
    if i < METERS {
        read_at(image, i)
    } else {
        Meter::default()
    }
}

// Another meter over the bytes of one that is there.
fn put_at(image: &mut [u8; IMAGE], i: usize, m: Meter)
    requires { i < length (decode_image image.old).meters }
    ensures { Becomes image.old (with_meters (set (decode_image image.old).meters i (plain_meter m)) (decode_image image.old)) image.new }
{
    let b = meters::meter_bytes(m);
    place::put(image, METERS_AT + METER * i, &b)
}

// Another meter at the place i, if one is there. All else stays as it is.
pub fn put_meter(image: &mut [u8; IMAGE], i: usize, m: Meter)
    ensures { Becomes image.old (with_meters (set (decode_image image.old).meters i (plain_meter m)) (decode_image image.old)) image.new }
{
    if i < head::count_of(image) {
        put_at(image, i, m)
    }
}
