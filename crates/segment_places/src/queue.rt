// What is queued, in an image.
ghost use Rattle.std.specs.Prelude.{◌≡◌, [], ◌++◌, ◌+◌, ◌≤◌, length, take, drop, replicate};
ghost use Rattle.std.proofs.Math.Seq.{paste};
ghost use Rattle.segment.specs.Plain.{with_queue};
ghost use Rattle.segment_image.specs.Image.{decode_image};
ghost use Rattle.segment_places.specs.ProgramBecomes.{Becomes, Queues, HandsOut};

use crate::{head, place};
use segment::QUEUE;
use segment_image::{IMAGE, QUEUE_AT, QUEUED_AT};

// The queue would be too long.
#[derive(Clone, Copy, PartialEq, Eq, Debug)]
pub struct QueueFull;

// Some bytes behind those queued, if there is room for them.
pub fn append(image: &mut [u8; IMAGE], more: &[u8]) -> Result<(), QueueFull>
    ensures { Queues more.now image.old result image.new }
{
    let queued = head::queued_of(image);
    if QUEUE - queued < more.len() {
        return Err(QueueFull);
    }
    place::put(image, QUEUE_AT + queued, more);
    place::put_two(image, QUEUED_AT, queued + more.len());
    Ok(())
}

// n times the byte b behind those queued, if there is room for them. For `append` an array of n bytes would have to be
// made.
pub fn append_same(image: &mut [u8; IMAGE], n: usize, b: u8) -> Result<(), QueueFull>
    ensures { Queues (replicate n b) image.old result image.new }
{
    let queued = head::queued_of(image);
    if QUEUE - queued < n {
        return Err(QueueFull);
    }
    place::fill(image, QUEUE_AT + queued, n, b);
    place::put_two(image, QUEUED_AT, queued + n);
    Ok(())
}

// All that is queued is gone.
pub fn empty(image: &mut [u8; IMAGE])
    ensures { Becomes image.old (with_queue [] (decode_image image.old)) image.new }
{
    let queued = head::queued_of(image);
    place::fill(image, QUEUE_AT, queued, 0);
    place::put_two(image, QUEUED_AT, 0)
}

// m bytes of the queue, from n on, go to its front.
fn shift(image: &mut [u8], n: usize, m: usize)
    requires { 278 + n + m ≤ length image.old }
    ensures { image.new ≡ paste image.old 278 (drop (278 + n) image.old) m }
{
    image.copy_within(QUEUE_AT + n..QUEUE_AT + n + m, QUEUE_AT);
}

fn shorten(image: &mut [u8; IMAGE], n: usize, queued: usize)
    requires { (queued ≡ length (decode_image image.old).queue) × (n ≤ queued) }
    ensures { Becomes image.old (with_queue (drop n (decode_image image.old).queue) (decode_image image.old)) image.new }
{
    let m = queued - n;
    shift(image, n, m);
    place::fill(image, QUEUE_AT + m, n, 0);
    place::put_two(image, QUEUED_AT, m)
}

// The first n of the queued bytes are gone.
pub fn take_out(image: &mut [u8; IMAGE], n: usize)
    ensures { Becomes image.old (with_queue (drop n (decode_image image.old).queue) (decode_image image.old)) image.new }
{
    let queued = head::queued_of(image);
    shorten(image, n.min(queued), queued)
}

fn copy_out(image: &[u8; IMAGE], n: usize, lent: &mut [u8])
    requires { (n ≤ length (decode_image image.now).queue) × (n ≤ length lent.old) }
    ensures { lent.new ≡ take n (decode_image image.now).queue ++ drop n lent.old }
{
    place::put(lent, 0, &image[QUEUE_AT..QUEUE_AT + n])
}

// The first of the queued bytes, at most so many and no more than are lent, become the first of what is lent; how many.
pub fn hand_out(image: &[u8; IMAGE], most: usize, lent: &mut [u8]) -> usize
    ensures { HandsOut most (decode_image image.now).queue lent.old result lent.new }
{
    let n = most.min(lent.len()).min(head::queued_of(image));
    copy_out(image, n, lent);
    n
}
