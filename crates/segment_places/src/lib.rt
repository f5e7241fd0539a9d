// The parts of a segment, read and changed where they lie, in its image (segment_image, specs/Image.antt).
#![tactic(auto)]

pub mod head; // head.rt: the numbers in front
pub mod input; // input.rt: what waits
pub mod meters; // meters.rt: a meter
mod place; // place.rt: bytes and numbers at a place
pub mod queue; // queue.rt: what is queued
