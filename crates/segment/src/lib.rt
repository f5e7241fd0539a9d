// The simulated segment by value: a bus with its meters, as an opening builds it and as an image is read.
#![tactic(auto)]

ghost use Rattle.std.specs.Prelude.{◌≡◌, [], map, take};
ghost use Rattle.meter.specs.View.{plain_meter};
ghost use Rattle.segment.specs.Plain.{blank};
ghost use Rattle.segment.specs.View.{plain_of};

use list_open::Meters;
use meter::Meter;

// As many meters as a segment can have.
pub const METERS: usize = list_open::METERS;

// The longest incomplete telegram.
pub const INPUT: usize = 260;

// As many bytes as can be queued.
pub const QUEUE: usize = 4096;

// Arrays with a length beside, since nothing here may lie on the heap. A count past the end means the whole array.
#[derive(Clone, Copy)]
pub struct Segment {
    pub meters: [Meter; METERS],
    pub count: usize,
    pub baud: u32,
    pub origin: f64,
    pub input: [u8; INPUT],
    pub waiting: usize,
    pub queue: [u8; QUEUE],
    pub queued: usize,
}

impl Segment {
    // These meters; nothing waits, and nothing is queued.
    pub fn opened(gathered: Meters, baud: u32, origin: f64) -> Segment
        ensures { plain_of result ≡ record { baud = baud; origin = origin; input = []; queue = []; meters = map plain_meter (take gathered.count gathered.meters) } }
    {
        let Meters { meters, count } = gathered;
        Segment {
            meters,
            count,
            baud,
            origin,
            input: [0; INPUT],
            waiting: 0,
            queue: [0; QUEUE],
            queued: 0,
        }
    }

    // No meters, 2400 Bd, origin 0.
    pub fn new() -> Segment
        ensures { plain_of result ≡ blank }
    {
        Segment::opened(list_open::opening::begin(), 2400, 0.0)
    }
}
