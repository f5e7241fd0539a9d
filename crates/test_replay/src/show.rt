// A segment's parts and the entries of a search, as text.
use crate::hex::Hex;
use meter::Meter;
use search::EntryRecord;
use segment::Segment;

// The last FCB as its number in the text: no impl of `From` may lie between types that are both std's.
fn last_number(last: Option<bool>) -> u8 {
    match last {
        None => 0,
        Some(false) => 1,
        Some(true) => 2,
    }
}

// By a function and no `Display`, which another crate's type can't be given.
fn meter(rt: &impl Print, m: &Meter) {
    let built = m.built;
    let state = m.state;
    let _ = println!(rt;
        "{} {:08x} {} {} {} {} {} {} {} {} {} {} {} {} {}",
        state.primary,
        built.id,
        built.manufacturer,
        built.version,
        built.medium,
        u8::from(built.model),
        u8::from(built.fault),
        state.access,
        state.baud,
        u8::from(state.selected),
        state.part,
        last_number(state.last),
        state.readouts,
        built.seed,
        u8::from(state.hearing)
    );
}

fn meters(segment: &Segment) -> &[Meter] {
    &segment.meters[..segment.count.min(segment::METERS)]
}

fn input(segment: &Segment) -> Hex<'_, 2> {
    Hex(&segment.input[..segment.waiting.min(segment::INPUT)])
}

fn queue(segment: &Segment) -> Hex<'_, 2> {
    Hex(&segment.queue[..segment.queued.min(segment::QUEUE)])
}

// Baud, origin, waiting input, queue and number of meters; then a line for each meter.
pub(crate) fn state(rt: &impl Print, segment: &Segment) {
    let _ = println!(rt;
        "state {} {:016x} {} {} {}",
        segment.baud,
        time_seconds::f64_bits(segment.origin),
        input(segment),
        queue(segment),
        segment.count
    );
    for m in meters(segment) {
        meter(rt, m);
    }
}

// Baud, waiting input, how much is queued, and how many meters are at the bus's rate.
pub(crate) fn short_state(rt: &impl Print, segment: &Segment) {
    let baud = segment.baud;
    let _ = println!(rt;
        "short {} {} {} {}",
        baud,
        input(segment),
        segment.queued,
        meters(segment)
            .iter()
            .filter(|m| m.state.baud == baud)
            .count()
    );
}

// Kind, digits and count.
pub(crate) fn entry(rt: &impl Print, e: &EntryRecord) {
    let _ = println!(rt; "{} {} {}", e.kind as u8, Hex::<1>(&e.digits), e.count);
}
