// Reads a meter list from standard input, at most 65,536 bytes, and writes what a search of its meters finds.
#![tactic(auto)]

use listing_text::INPUT;
use std::io;
use std::io::Read;

// Arrays and no `Vec`: allocating would bring further C contracts into what is trusted.

// Where reading or writing fails a line on standard error says so, and the status is 0 all the same.
fn main(rt: HostRuntime) {
    let mut buffer = [0u8; INPUT];
    let mut free: &mut [u8] = &mut buffer;
    if io::copy(&mut rt.stdin().take(INPUT as u64), &mut free).is_err() {
        let _ = eprintln!(rt; "listing: standard input cannot be read");
        return;
    }
    let count = INPUT.saturating_sub(free.len());
    let mut out = [0u8; listing_text::TEXT];
    let len = listing_text::listing(&buffer[..count], &mut out);
    if rt.write_all(&out[..len]).is_err() {
        let _ = eprintln!(rt; "listing: standard output cannot be written");
    }
}
