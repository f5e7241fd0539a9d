// A meter as a search packs it, in two numbers: its key, the id whose nibbles are the digits, and its mark, all that
// a mask or a reading can change (bits.rt).
ghost use Rattle.std.specs.Prelude.{◌≡◌, ℕ, ◌≤◌};
ghost use Rattle.laws.specs.Words.{within};
ghost use Rattle.list_open.specs.Opening.{capacity};
ghost use Rattle.search_packed.specs.ProgramMarks.{yes_of, hears_of_value, marked, masked, acked, readouts_in, readable, read_mark_value, read_key_value, read_by, swept_by, fold_by};

use crate::bits::{ACCESS, CLEAR, FAILS, FLAKY, FRESH, HEARS, READOUTS, STEADY, TOO_MANY};
use list_open::METERS;

// 1 where the meter answers a telegram; `offered` is 1 where the telegram is put to it. They are numbers and no bools, so
// that a sweep is vectorised.
fn yes_of(mark: u32, offered: u32) -> u32
    requires { offered ≤ 1 }
    ensures { (result ≡ yes_of mark offered) × (result ≤ 1) }
{
    (mark / STEADY % 2 | mark / HEARS % 2) & offered
}

// 1 where the meter hears the next telegram: a flaky one hears every second.
fn hears_of(mark: u32, offered: u32) -> u32
    requires { offered ≤ 1 }
    ensures { (result ≡ hears_of_value mark offered) × (result ≤ 1) }
{
    mark / HEARS % 2 ^ (mark / FLAKY % 2 & offered)
}

// A mark after a mask: selected exactly if the meter answers, and reset where it does.
fn mask_mark(mark: u32, offered: u32) -> u32
    requires { offered ≤ 1 }
    ensures { result ≡ marked mark offered }
{
    let yes = yes_of(mark, offered);
    let hears = hears_of(mark, offered);
    let fresh = mark / FRESH % 2 | yes;
    let clear = mark / CLEAR % 2 & (1 - yes);
    mark / STEADY * STEADY + clear % 2 * CLEAR + hears * HEARS + fresh % 2 * FRESH + yes
}

// Both ends are within. One comparison: below the lower end the difference wraps to more than the upper end allows.
fn is_between(low: u32, high: u32, x: u32) -> bool
    requires { low ≤ high }
    ensures { result ≡ within low high x }
{
    x.wrapping_sub(low) <= high - low
}

// The mask of the ids from low to high is sent: how many acknowledge it. Low and high, keys and marks are parameters of their
// own, as the definitions of a sweep have them.
// This is 01's probe of the segment that keys and marks stand for (search, proofs/PackedProbe.antt, `probe-packed`).
pub(crate) fn send_mask(keys: &[u32; METERS], marks: &mut [u32; METERS], low: u32, high: u32) -> u32
    requires { low ≤ high }
    ensures { (marks.new ≡ swept_by (masked low high) capacity keys.now marks.old)
        × (result ≡ fold_by (acked low high) 0 capacity keys.now marks.old) }
{
    let mut acks = 0u32;
    // By index: after `marks.iter_mut().zip(keys)` a proof knows the length of the marks, and not the marks.
    for i in 0..METERS {
        let offered = u32::from(is_between(low, high, keys[i]));
        let mark = mask_mark(marks[i], offered);
        marks[i] = mark;
        acks += mark % 2;
    }
    acks
}

// The readouts of a too_many meter are counted, up to 3.
fn readouts(mark: u32) -> u32
    ensures { result ≡ readouts_in mark }
{
    let n = mark / READOUTS % 256;
    if mark / TOO_MANY % 2 == 0 {
        n
    } else if n < 3 {
        n + 1
    } else {
        3
    }
}

// A mark after a reading, which is put to the selected.
fn read_mark(mark: u32) -> u32
    ensures { result ≡ read_mark_value mark }
{
    let offered = mark % 2;
    let yes = yes_of(mark, offered);
    let hears = hears_of(mark, offered);
    if yes == 0 {
        return mark / CLEAR * CLEAR + hears * HEARS + mark % HEARS;
    }
    // By a cast: the proof by `u32::from` didn't close.
    let access = ((mark / ACCESS % 256) as u8).wrapping_add(1);
    mark / STEADY % 16 * STEADY
        + CLEAR
        + hears * HEARS
        + mark % HEARS
        + readouts(mark) % 256 * READOUTS
        + access as u32 * ACCESS
}

// Its reply is good.
fn is_readable(mark: u32) -> bool
    ensures { result ≡ readable mark }
{
    mark / FAILS % 2 == 0 && (mark / TOO_MANY % 2 == 0 || mark / READOUTS % 256 < 2)
}

// The id that a reading brings, behind a 1; a meter whose reply is not good leaves what was there. It is one number and no
// `Option`, as an entry is in the walk.
fn read_key(id: u64, key: u32, mark: u32) -> u64
    ensures { result ≡ read_key_value id key mark }
{
    if yes_of(mark, mark % 2) == 1 && is_readable(mark) {
        0x100000000 + u64::from(key)
    } else {
        id
    }
}

// REQ_UD2 is sent to the selected: the id that the reply brings, else mute.
// Where one is selected, this is 01's reading of that segment (search, proofs/PackedRead.antt, `read-packed`).
pub(crate) fn read_selected(keys: &[u32; METERS], marks: &mut [u32; METERS], mute: u64) -> u64
    ensures { (marks.new ≡ swept_by read_by capacity keys.now marks.old)
        × (result ≡ fold_by read_key_value mute capacity keys.now marks.old) }
{
    let mut id = mute;
    // By index: after `marks.iter_mut().zip(keys)` a proof knows the length of the marks, and not the marks.
    for i in 0..METERS {
        let mark = marks[i];
        id = read_key(id, keys[i], mark);
        marks[i] = read_mark(mark);
    }
    id
}
