// Reads a script of calls from standard input, at most 65,536 bytes, makes them on a segment in its image, and
// writes what each gives.
#![tactic(auto)]

use script::{Command, Script};
use segment::Segment;
use segment_image::IMAGE;
use std::io;
use std::io::Read;
use time_clock::Clock;

mod calls; // calls.rt: each call, and its line of text
mod hex; // hex.rt: bytes in hexadecimal
mod script; // script.rt: the commands of a script
mod show; // show.rt: a segment's parts and the entries of a search as text

// The clock for a script that sets none.
const NOON: Clock = Clock {
    now: 3725.5,
    year: 2026,
    month: 10,
    day: 1,
    hour: 12,
    minute: 34,
};

fn step(rt: &impl Print, image: &mut [u8; IMAGE], clock: &mut Clock, command: Command<'_>) {
    match command {
        Command::Clock(next) => *clock = next,
        Command::Open {
            baud,
            practice,
            origin,
            list,
        } => calls::open(rt, image, list, baud, practice, origin),
        Command::Builtin {
            number,
            baud,
            practice,
            origin,
        } => calls::open_builtin(rt, image, number, baud, practice, origin),
        Command::Send(piece) => calls::send(rt, image, *clock, piece),
        Command::Receive(lent) => calls::receive(rt, image, lent),
        Command::Clear => calls::clear(rt, image),
        Command::Baud(baud) => calls::set_baud(rt, image, baud),
        Command::Search { allowance, lent } => calls::find(rt, image, *clock, allowance, lent),
        Command::Export(lent) => calls::export(rt, image, lent),
        Command::State => show::state(rt, &segment_image::read_image(image)),
        Command::Short => show::short_state(rt, &segment_image::read_image(image)),
    }
}

// The commands, one after the other, from a segment of no meters on.
fn replay(rt: &impl Print, script: &[u8]) {
    let mut image = [0u8; IMAGE];
    segment_image::write_image(Segment::new(), &mut image);
    let mut clock = NOON;
    for command in Script(script) {
        step(rt, &mut image, &mut clock, command);
    }
}

// More of the input is not read. Arrays and no `Vec`: allocating would bring further C contracts into what is trusted.
const INPUT: usize = 65536;

// Where reading fails, what was read before is the script.
fn main(rt: HostRuntime) {
    let mut buffer = [0u8; INPUT];
    let mut free: &mut [u8] = &mut buffer;
    let _ = io::copy(&mut rt.stdin().take(INPUT as u64), &mut free);
    let read = INPUT.saturating_sub(free.len());
    replay(&rt, &buffer[..read]);
}
