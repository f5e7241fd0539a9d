// A segment as an array of bytes and back, so that a caller in another language keeps it between calls.
// specs/Image.antt says where each part lies.
#![tactic(auto)]

ghost use Rattle.std.specs.Prelude.{◌≡◌, map, ◌++◌, ◌+◌, ◌*◌, ◌≤◌, ◌<◌, length, take, drop, replicate};
ghost use Rattle.laws.specs.Words.{each};
ghost use Rattle.list_open.specs.Opening.{capacity};
ghost use Rattle.meter.specs.View.{plain_meter};
ghost use Rattle.segment_image.specs.MeterBytes.{encode_meter};
ghost use Rattle.segment.specs.View.{plain_of};
ghost use Rattle.segment_image.specs.Image.{block, meters, decode_image, Head, head_bytes_value, IsImage};

use copying::bytes_at;
use meter::Meter;
use segment::{INPUT, METERS, QUEUE, Segment};

pub mod meters; // meters.rt: a meter as 25 bytes
mod copying; // copying.rt: bytes out of a place, and blocks of bytes into one

// Where the parts lie: baud, four bytes; origin, eight; how many meters there are, how many bytes wait and how many are
// queued, two bytes each; the input; the queue; the meters, and how many bytes each has.
pub const BAUD_AT: usize = 0;

pub const ORIGIN_AT: usize = 4;

pub const COUNT_AT: usize = 12;

pub const WAITING_AT: usize = 14;

pub const QUEUED_AT: usize = 16;

pub const INPUT_AT: usize = 18;

pub const QUEUE_AT: usize = INPUT_AT + INPUT;

pub const METERS_AT: usize = QUEUE_AT + QUEUE;

pub const METER: usize = 25;

// How many bytes an image has.
pub const IMAGE: usize = METERS_AT + METER * METERS;

// ---- the meters

// The first count meters; the others are blank. A `for` into one array: `array::from_fn` makes 64 turns whatever the
// count is, and keeps four such arrays on the stack at once.
fn read_meters(bs: &[u8], count: usize) -> [Meter; METERS]
    requires { (length bs.now ≡ 25 * capacity) × (count ≤ capacity) }
    ensures { map plain_meter (take count result) ≡ meters count bs.now }
{
    let mut meters = [Meter::default(); METERS];
    for i in 0..count {
        let p = METER * i;
        meters[i] = meters::read_meter(&bs[p..p + METER]);
    }
    meters
}

// Meters, one behind the other from the front on.
fn write_meters(ms: &[Meter], bs: &mut [u8])
    requires { (length bs.old ≡ 25 * capacity) × (length ms.now ≤ capacity) }
    ensures { (bs.new ≡ each (map plain_meter ms.now) encode_meter ++ drop (25 * length ms.now) bs.old) × (meters (length ms.now) bs.new ≡ map plain_meter ms.now) }
{
    for (i, m) in ms.iter().enumerate() {
        let b = meters::meter_bytes(*m);
        copying::copy(&b, bs, METER * i);
    }
}

// ---- the segment

// The first n of the bytes of a part that lies at a place; the others are 0.
fn read_part<const N: usize>(bs: &[u8], at: usize, n: usize) -> [u8; N]
    requires { (at + N ≤ length bs.now) × (n ≤ N) }
    ensures { take n result ≡ block at n bs.now }
{
    let mut part = [0; N];
    part[..n].copy_from_slice(&bs[at..at + n]);
    part
}

// Any bytes mean a segment.
pub fn read_image(image: &[u8; IMAGE]) -> Segment
    ensures { plain_of result ≡ decode_image image.now }
{
    let bs = &image[..];
    let count = usize::from(u16::from_le_bytes(bytes_at(bs, COUNT_AT))).min(METERS);
    let waiting = usize::from(u16::from_le_bytes(bytes_at(bs, WAITING_AT))).min(INPUT);
    let queued = usize::from(u16::from_le_bytes(bytes_at(bs, QUEUED_AT))).min(QUEUE);
    let input = read_part::<INPUT>(bs, INPUT_AT, waiting);
    let queue = read_part::<QUEUE>(bs, QUEUE_AT, queued);
    let meters = read_meters(&bs[METERS_AT..], count);
    Segment {
        meters,
        count,
        baud: u32::from_le_bytes(bytes_at(bs, BAUD_AT)),
        origin: time_seconds::f64_from_bits(u64::from_le_bytes(bytes_at(bs, ORIGIN_AT))),
        input,
        waiting,
        queue,
        queued,
    }
}

// The first 18 bytes, of five numbers that stand together here alone. A NaN goes as one fixed pattern.
fn head_bytes(baud: u32, origin: f64, count: usize, waiting: usize, queued: usize) -> [u8; INPUT_AT]
    requires { (count < 65536) × (waiting < 65536) × (queued < 65536) }
    ensures { (result ≡ head_bytes_value baud origin count waiting queued) × Head baud origin count waiting queued result }
{
    let b = baud.to_le_bytes();
    let o = time_seconds::f64_bits(origin).to_le_bytes();
    let c = (count as u16).to_le_bytes();
    let w = (waiting as u16).to_le_bytes();
    let q = (queued as u16).to_le_bytes();
    [
        b[0], b[1], b[2], b[3], o[0], o[1], o[2], o[3], o[4], o[5], o[6], o[7], c[0], c[1], w[0],
        w[1], q[0], q[1],
    ]
}

// The parts in use, over bytes 0. What a count says beyond its array is cut off, so that two bytes suffice.
fn write_parts(s: Segment, bs: &mut [u8])
    requires { (length bs.old ≡ 4374 + 25 * capacity) × (bs.old ≡ replicate (length bs.old) 0) }
    ensures { IsImage (plain_of s) bs.new }
{
    let count = s.count.min(METERS);
    let waiting = s.waiting.min(INPUT);
    let queued = s.queued.min(QUEUE);
    let head = head_bytes(s.baud, s.origin, count, waiting, queued);
    copying::copy(&head, bs, 0);
    copying::copy(&s.input[..waiting], bs, INPUT_AT);
    copying::copy(&s.queue[..queued], bs, QUEUE_AT);
    write_meters(&s.meters[..count], &mut bs[METERS_AT..]);
}

// The image of the segment. Equal segments have equal images.
pub fn write_image(s: Segment, image: &mut [u8; IMAGE])
    ensures { IsImage (plain_of s) image.new }
{
    image.fill(0);
    write_parts(s, image)
}

// The one image of the segment that the bytes mean, in their place.
pub fn tidy(image: &mut [u8; IMAGE])
    ensures { IsImage (decode_image image.old) image.new }
{
    let s = read_image(image);
    write_image(s, image)
}
