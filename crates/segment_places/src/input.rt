// What waits, in an image.
ghost use Rattle.std.specs.Prelude.{◌≡◌, [], ◌++◌, ◌+◌, ◌≤◌, min, length, take, replicate};
ghost use Rattle.segment.specs.Plain.{with_input};
ghost use Rattle.segment_image.specs.Image.{decode_image};
ghost use Rattle.segment_places.specs.ProgramBecomes.{Becomes};

use crate::{head, place};
use segment::INPUT;
use segment_image::{IMAGE, INPUT_AT, WAITING_AT};

// The longest piece, and the longest with what waits before it.
pub const PIECE: usize = 1024;

pub const LINE: usize = INPUT + PIECE;

// These bytes, and 0 behind them.
fn put_input(image: &mut [u8; IMAGE], rest: &[u8])
    requires { length rest.now ≤ 260 }
    ensures { Becomes image.old (with_input rest.now (decode_image image.old)) image.new }
{
    place::fill(image, INPUT_AT, INPUT, 0);
    place::put(image, INPUT_AT, rest);
    place::put_two(image, WAITING_AT, rest.len())
}

// These bytes wait, and no others: at most 260.
pub fn keep(image: &mut [u8; IMAGE], rest: &[u8])
    ensures { Becomes image.old (with_input (take 260 rest.now) (decode_image image.old)) image.new }
{
    let n = rest.len().min(INPUT);
    put_input(image, &rest[..n])
}

// All that waits is discarded. Where nothing waits there is nothing to write.
pub fn discard(image: &mut [u8; IMAGE])
    ensures { Becomes image.old (with_input [] (decode_image image.old)) image.new }
{
    if head::waiting_of(image) != 0 {
        put_input(image, &[])
    }
}

// What waits.
pub fn waiting(image: &[u8; IMAGE]) -> &[u8]
    ensures { result.now ≡ (decode_image image.now).input }
{
    let n = head::waiting_of(image);
    &image[INPUT_AT..INPUT_AT + n]
}

fn line_of(image: &[u8; IMAGE], waiting: usize, piece: &[u8]) -> [u8; LINE]
    requires { (waiting ≡ length (decode_image image.now).input) × (length piece.now ≤ 1024) }
    ensures { take (waiting + length piece.now) result ≡ (decode_image image.now).input ++ piece.now }
{
    let mut line = [0; LINE];
    place::put(&mut line, 0, &image[INPUT_AT..INPUT_AT + waiting]);
    place::put(&mut line, waiting, piece);
    line
}

// What waits, and a piece behind it: at most 1,024 bytes of it. An array, since nothing here may lie on the heap.
pub fn with_piece(image: &[u8; IMAGE], piece: &[u8]) -> [u8; LINE]
    ensures { take (length (decode_image image.now).input + min (length piece.now) 1024) result ≡ (decode_image image.now).input ++ take 1024 piece.now }
{
    let n = piece.len().min(PIECE);
    line_of(image, head::waiting_of(image), &piece[..n])
}
