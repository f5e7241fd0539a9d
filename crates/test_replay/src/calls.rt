// Each call on the segment in an image, and the line that says what it gives. Where writing fails the run goes on, and
// the status is 0 all the same: what is written shows it.
use crate::hex::Hex;
use crate::show;
use laws::answer;
use laws::answer::Numbered;
use search::search_listed;
use segment_image::IMAGE;
use time_clock::Clock;

// The number of the refusal, and the record's index.
pub(crate) fn open(
    rt: &impl Print,
    image: &mut [u8; IMAGE],
    list: &[u8],
    baud: u32,
    practice: bool,
    origin: f64,
) {
    let answer = segment_calls::open(image, list, baud, practice, origin);
    let number = answer::number(answer);
    let index = list_check::refusal::refusal_index(answer);
    let _ = println!(rt; "open {number} {index}");
}

// An opening of a built-in list, if there is one of that number.
pub(crate) fn open_builtin(
    rt: &impl Print,
    image: &mut [u8; IMAGE],
    number: u8,
    baud: u32,
    practice: bool,
    origin: f64,
) {
    match number {
        0 => open(rt, image, &list_builtin::praxis(), baud, practice, origin),
        1 => open(rt, image, &list_builtin::ok10(), baud, practice, origin),
        2 => open(rt, image, &list_builtin::mfh30(), baud, practice, origin),
        3 => open(rt, image, &list_builtin::bauds(), baud, practice, origin),
        _ => {}
    }
}

pub(crate) fn send(rt: &impl Print, image: &mut [u8; IMAGE], clock: Clock, piece: &[u8]) {
    let answer = segment_send::send(image, piece, clock);
    let number = answer::number(answer);
    let _ = println!(rt; "send {number}");
}

// The bytes received, in hexadecimal; at most 64 are lent.
pub(crate) fn receive(rt: &impl Print, image: &mut [u8; IMAGE], lent: usize) {
    let mut bytes = [0u8; 64];
    let count = segment_calls::receive(image, &mut bytes[..lent.min(64)]);
    let received = Hex::<2>(&bytes[..count.min(64)]);
    let _ = println!(rt; "receive {count} {received}");
}

pub(crate) fn clear(rt: &impl Print, image: &mut [u8; IMAGE]) {
    segment_calls::clear(image);
    let _ = println!(rt; "clear");
}

pub(crate) fn set_baud(rt: &impl Print, image: &mut [u8; IMAGE], baud: u32) {
    let answer = segment_calls::set_baud(image, baud);
    let number = answer::number(answer);
    let _ = println!(rt; "baud {number}");
}

// A line for each entry follows; at most as many entries are lent as a segment has meters.
pub(crate) fn find(
    rt: &impl Print,
    image: &mut [u8; IMAGE],
    clock: Clock,
    allowance: u32,
    lent: usize,
) {
    match search_listed(image, clock, allowance, lent) {
        Ok(found) => {
            let spent = u8::from(found.spent);
            let _ = println!(rt; "search 0 {} {} {spent}", found.count, found.probes);
            for e in &found.entries[..found.count] {
                show::entry(rt, e);
            }
        }
        Err(error) => {
            let number = error.number();
            let _ = println!(rt; "search {number} 0 0 0");
        }
    }
}

// As many bytes as the list of a segment can have: 3, and 46 for each meter.
const LIST: usize = 2947;

// The bytes written, in hexadecimal; at most as many are lent as a list can have.
pub(crate) fn export(rt: &impl Print, image: &[u8; IMAGE], lent: usize) {
    let mut bytes = [0u8; LIST];
    let answer = segment_export::export(image, &mut bytes[..lent.min(LIST)]);
    let number = answer::number(answer);
    let count = usize::from(answer::count(answer));
    let written = Hex::<2>(&bytes[..count.min(LIST)]);
    let _ = println!(rt; "export {number} {count} {written}");
}
