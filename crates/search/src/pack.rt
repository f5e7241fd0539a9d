// From the meters of an image to their keys and marks and back, and from an entry's number to its record.
ghost use Rattle.std.specs.Prelude.{◌≡◌, ◌++◌, map, ◌+◌, ◌≤◌, length, drop};
ghost use Rattle.laws.specs.Words.{Every};
ghost use Rattle.meter_identity.specs.Identity.{digits_of_value};
ghost use Rattle.meter.specs.View.{plain_meter};
ghost use Rattle.segment_image.specs.Image.{decode_image};
ghost use Rattle.segment_places.specs.ProgramBecomes.{Becomes};
ghost use Rattle.search_packed.specs.ProgramBits.{STEADY, TOO_MANY};
ghost use Rattle.search.specs.ProgramPacking.{fault_bits_value, key_of_value, mark_of_value, Bounded, packed, last_in_value, part_in_value, seen_as, unmarked, kind_in, count_in, record_in};

use crate::{EntryRecord, Kind};
use meter::{Fault, Meter, State};
use search_packed::bits::{ACCESS, CLEAR, FAILS, FLAKY, FRESH, HEARS, READOUTS, STEADY, TOO_MANY};
use segment::METERS;
use segment_image::IMAGE;
use segment_places::head;
use segment_places::meters::{meter_at, put_meter};

// The bits of a mark that say what kind of meter it is: a line for each value.
fn fault_bits(fault: Fault) -> u32
    ensures { (result ≡ fault_bits_value fault) × (result ≤ STEADY + TOO_MANY) }
{
    match fault {
        Fault::None | Fault::WrongAddress => STEADY,
        Fault::Checksum | Fault::Truncated | Fault::Busy => STEADY + FAILS,
        Fault::Flaky => FLAKY,
        Fault::TooMany => STEADY + TOO_MANY,
    }
}

// The mark with which a search begins.
fn mark_of(m: Meter, bus: u32) -> u32
    ensures { (result ≡ mark_of_value bus (plain_meter m)) × Bounded (plain_meter m) }
{
    if m.state.baud != bus {
        return 0;
    }
    let low = u32::from(m.state.selected) + u32::from(m.state.hearing) * HEARS;
    low + fault_bits(m.built.fault)
        + u32::from(m.state.readouts) * READOUTS
        + u32::from(m.state.access) * ACCESS
}

// Meters packed: at each place a meter's key and its mark. They are two arrays, so that a walk's sweeps are
// vectorised.
#[derive(Clone, Copy)]
pub(crate) struct Packed {
    pub(crate) keys: [u32; METERS],
    pub(crate) marks: [u32; METERS],
}

// The meters of an image, packed: by place, into both arrays.
pub(crate) fn packed_of(image: &[u8; IMAGE]) -> Packed
    ensures keys { result.keys ≡ packed key_of_value (decode_image image.now).meters }
    ensures marks { result.marks ≡ packed (mark_of_value (decode_image image.now).baud) (decode_image image.now).meters }
    ensures bounded { Every Bounded (decode_image image.now).meters }
{
    let mut keys = [0u32; METERS];
    let mut marks = [0u32; METERS];
    let bus = head::baud_of(image);
    for i in 0..head::count_of(image) {
        let m = meter_at(image, i);
        keys[i] = m.built.id;
        marks[i] = mark_of(m, bus);
    }
    Packed { keys, marks }
}

// The part and the last FCB that a mark leaves: clear, the last FCB is clear; fresh, a select reset them.
fn part_in(clear: bool, fresh: bool, part: u8) -> u8
    ensures { result ≡ part_in_value clear fresh part }
{
    if clear || fresh { 0 } else { part }
}

fn last_in(clear: bool, fresh: bool, last: Option<bool>) -> Option<bool>
    ensures { result ≡ last_in_value clear fresh last }
{
    if clear {
        return Some(false);
    }
    if fresh {
        return None;
    }
    last
}

// A meter as its mark has it; one at another baud stays.
fn unmark(m: Meter, bus: u32, mark: u32) -> Meter
    ensures { plain_meter result ≡ seen_as bus (plain_meter m) mark }
{
    if m.state.baud != bus {
        return m;
    }
    let fresh = mark / FRESH % 2 == 1;
    let clear = mark / CLEAR % 2 == 1;
    let state = State {
        access: (mark / ACCESS % 256) as u8,
        selected: mark % 2 == 1,
        part: part_in(clear, fresh, m.state.part),
        last: last_in(clear, fresh, m.state.last),
        readouts: (mark / READOUTS % 256) as u8,
        hearing: mark / HEARS % 2 == 1,
        ..m.state
    };
    Meter { state, ..m }
}

// Each meter as its mark has it, over the bytes that it had: by place, where it is read and put back.
pub(crate) fn unmark_all(image: &mut [u8; IMAGE], marks: [u32; METERS])
    ensures { Becomes image.old (unmarked marks (decode_image image.old)) image.new }
{
    let bus = head::baud_of(image);
    for i in 0..head::count_of(image) {
        let m = meter_at(image, i);
        let k = unmark(m, bus, marks[i]);
        put_meter(image, i, k);
    }
}

// A line a digit, as in the definition: by `array::from_fn` each is a shift by a computed number, to be proved equal.
fn digits_of(id: u32) -> [u8; 8]
    ensures { result ≡ digits_of_value id }
{
    [
        (id / 0x10000000 % 16) as u8,
        (id / 0x1000000 % 16) as u8,
        (id / 0x100000 % 16) as u8,
        (id / 0x10000 % 16) as u8,
        (id / 0x1000 % 16) as u8,
        (id / 0x100 % 16) as u8,
        (id / 0x10 % 16) as u8,
        (id % 16) as u8,
    ]
}

// In the walk an entry is no enum: the sweep of a reading carries it as a number from mark to mark; it is read here, and not
// by a `From`, which would be public and show the packing.
fn kind_of(front: u32) -> Kind
    ensures { result ≡ kind_in front }
{
    match front {
        0 => Kind::Mute,
        1 => Kind::One,
        _ => Kind::Many,
    }
}

fn count_of(front: u32) -> u32
    ensures { result ≡ count_in front }
{
    front.max(1)
}

fn record_of(e: u64) -> EntryRecord
    ensures { result ≡ record_in e }
{
    let front = (e / 0x100000000) as u32;
    EntryRecord {
        kind: kind_of(front),
        digits: digits_of((e % 0x100000000) as u32),
        count: count_of(front),
    }
}

// The records of these entries, in front of the records lent; further ones stay.
// By index: after `lent.iter_mut().zip(found)` a proof knows the length of the records, and not the records.
pub(crate) fn write_records(found: &[u64], lent: &mut [EntryRecord])
    requires { length found.now ≤ length lent.old }
    ensures { lent.new ≡ map record_in found.now ++ drop (length found.now) lent.old }
{
    for i in 0..found.len() {
        lent[i] = record_of(found[i]);
    }
}
