// The numbers that an image begins with.
ghost use Rattle.std.specs.Prelude.{◌≡◌, length};
ghost use Rattle.segment.specs.Plain.{with_baud_value};
ghost use Rattle.segment_image.specs.Image.{decode_image};
ghost use Rattle.segment_places.specs.ProgramBecomes.{Becomes};

use crate::place;
use segment::{INPUT, METERS, QUEUE};
use segment_image::{BAUD_AT, COUNT_AT, IMAGE, ORIGIN_AT, QUEUED_AT, WAITING_AT};

#[tactic(auto, unfolding(segment_image::specs::Image::decode_image, numbers::specs::Number::number))]
pub fn baud_of(image: &[u8; IMAGE]) -> u32
    ensures { result ≡ (decode_image image.now).baud }
{
    u32::from_le_bytes(place::bytes_at(image, BAUD_AT))
}

#[tactic(auto, unfolding(segment_image::specs::Image::decode_image, numbers::specs::Number::number))]
pub fn origin_of(image: &[u8; IMAGE]) -> f64
    ensures { result ≡ (decode_image image.now).origin }
{
    time_seconds::f64_from_bits(u64::from_le_bytes(place::bytes_at(image, ORIGIN_AT)))
}

// How many meters there are. This and the next two differ in their clauses: each counts another part.
#[tactic(auto, using(crate::proofs::PlaceLaws::meters_count), unfolding(list_open::specs::Opening::capacity, numbers::specs::Number::number))]
pub fn count_of(image: &[u8; IMAGE]) -> usize
    ensures { result ≡ length (decode_image image.now).meters }
{
    usize::from(u16::from_le_bytes(place::bytes_at(image, COUNT_AT))).min(METERS)
}

// How many bytes wait.
#[tactic(auto, using(crate::proofs::PlaceLaws::input_count), unfolding(numbers::specs::Number::number))]
pub fn waiting_of(image: &[u8; IMAGE]) -> usize
    ensures { result ≡ length (decode_image image.now).input }
{
    usize::from(u16::from_le_bytes(place::bytes_at(image, WAITING_AT))).min(INPUT)
}

// How many bytes are queued.
#[tactic(auto, using(crate::proofs::PlaceLaws::queue_count), unfolding(numbers::specs::Number::number))]
pub fn queued_of(image: &[u8; IMAGE]) -> usize
    ensures { result ≡ length (decode_image image.now).queue }
{
    usize::from(u16::from_le_bytes(place::bytes_at(image, QUEUED_AT))).min(QUEUE)
}

// Another bus baud.
pub fn put_baud(image: &mut [u8; IMAGE], baud: u32)
    ensures { Becomes image.old (with_baud_value baud (decode_image image.old)) image.new }
{
    let b = baud.to_le_bytes();
    place::put(image, BAUD_AT, &b)
}
