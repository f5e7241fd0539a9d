// The entry points of the static library, which the crate jezynar_c exports. The segment is an image that the caller
// keeps between the calls.
#![tactic(auto)]

ghost use Rattle.std.specs.Prelude.{◌≡◌, ◌+◌, ◌*◌, ◌/◌, ◌%◌, ◌<◌};
ghost use Rattle.frame.specs.Frame;
ghost use Rattle.frame_write.specs.Writer.{write};
ghost use Rattle.laws.specs.Refusal.{number_of_answer, count_of_answer};
ghost use Rattle.list_check.specs.Refusals.{refusal_number_value, refusal_index_value};
ghost use Rattle.list_open.specs.Opening.{most_meters};
ghost use Rattle.time_clock.specs.Fields.{clock_at_value};
ghost use Rattle.segment.specs.Plain.{blank};
ghost use Rattle.segment.specs.Calls;
ghost use Rattle.segment_send.specs.Send;
ghost use Rattle.segment_send.specs.View.{SentImage};
ghost use Rattle.segment_image.specs.Image.{decode_image, image_len, IsImage};
ghost use Rattle.segment_image.specs.Answers.{DoneImage, OpenedImage, ReceivedImage, LeftImage};
ghost use Rattle.segment_export.specs.Export.{export_into_value};
ghost use Rattle.segment_export.specs.View.{exported_by};
ghost use Rattle.c_search.specs.Searches.{search_by, Searches};
ghost use Rattle.c_frame.specs.Telegrams.{Parses, telegram_by, Writes};

use laws::answer;
use laws::answer::Numbered;
use list_check::refusal::Refusal;
use segment::Segment;
use segment_image::IMAGE;
use time_clock::clock_at;

const LEN: usize = IMAGE;

// How many bytes an image has.
pub fn jezynar_segment_image_len() -> usize
    ensures { result ≡ image_len }
{
    LEN
}

// No meters, 2400 Bd, origin 0.
pub fn jezynar_segment_new(image: &mut [u8; IMAGE])
    ensures { IsImage blank image.new }
{
    let fresh = Segment::new();
    segment_image::write_image(fresh, image);
}

// The one image of the segment that the bytes mean, in their place.
pub fn jezynar_segment_tidy(image: &mut [u8; IMAGE])
    ensures { IsImage (decode_image image.old) image.new }
{
    segment_image::tidy(image)
}

// Empties the queue alone.
pub fn jezynar_segment_clear(image: &mut [u8; IMAGE])
    ensures { LeftImage (Calls.clear (decode_image image.old)) image.old image.new }
{
    segment_calls::clear(image)
}

// Sets the bus baud and empties the input. 10: no rate.
pub fn jezynar_segment_set_baud(image: &mut [u8; IMAGE], baud: u32) -> u32
    ensures { DoneImage (Calls.change_baud baud (decode_image image.old)) result image.old image.new }
{
    let answer = segment_calls::set_baud(image, baud);
    answer::number(answer)
}

// number + 256 * index, since a C call answers one number
fn packed(answer: Result<(), Refusal>) -> u32
    requires { refusal_index_value answer < most_meters }
    ensures { (result ≡ refusal_number_value answer + 256 * refusal_index_value answer) × (refusal_number_value answer < 256) }
{
    let index = list_check::refusal::refusal_index(answer);
    let number = answer::number(answer);
    number + 256 * (index as u32)
}

// Opens the segment of a list. Refused with 1 to 10; 4 to 9 name the first record that fails.
pub fn jezynar_segment_open(
    image: &mut [u8; IMAGE],
    list: &[u8],
    baud: u32,
    practice: bool,
    origin: f64,
) -> u32
    ensures { OpenedImage list.now baud practice origin (result % 256) (result / 256) image.old image.new }
{
    let answer = segment_calls::open(image, list, baud, practice, origin);
    packed(answer)
}

// number * 65536 + how many bytes, since a C call answers one number
fn packed_count<E: Numbered>(answer: Result<u16, E>) -> u32
    ensures { (result ≡ number_of_answer E.number_of answer * 65536 + count_of_answer answer) × (count_of_answer answer < 65536) }
{
    answer::number(answer) * 65536 + u32::from(answer::count(answer))
}

// Sends a piece at a clock, whose six numbers C gives one by one. 13: piece over 1,024; 14: a clock field out of range;
// 15: queue would pass 4,096. Accepted, it says how many bytes are due of what waits.
pub fn jezynar_segment_send(
    image: &mut [u8; IMAGE],
    piece: &[u8],
    secs: f64,
    year: u32,
    month: u32,
    day: u32,
    hour: u32,
    minute: u32,
) -> u32
    ensures { SentImage (Send.send piece.now (clock_at_value secs year month day hour minute) (decode_image image.old)) (result / 65536) (result % 65536) image.old image.new }
{
    let at = clock_at(secs, year, month, day, hour, minute);
    let answer = segment_send::send(image, piece, at);
    packed_count(answer)
}

// Hands out the least of 32, the lent length and the queued bytes.
pub fn jezynar_segment_receive(image: &mut [u8; IMAGE], lent: &mut [u8]) -> usize
    ensures { ReceivedImage (Calls.receive lent.old (decode_image image.old)) result lent.new image.old image.new }
{
    segment_calls::receive(image, lent)
}

// Writes the present meters as a list, to be opened at the bus baud. 18: a primary above 250; 12: lent bytes too few.
pub fn jezynar_segment_export(image: &[u8; IMAGE], lent: &mut [u8]) -> u32
    ensures { exported_by (result / 65536) (result % 65536) lent.new ≡ export_into_value lent.old (decode_image image.now) }
{
    let answer = segment_export::export(image, lent);
    packed_count(answer)
}

// ---- the search

// Searches with an allowance of probes; 16 lent bytes for each entry.
// 14: a clock field out of range; 16: input or queue not empty; 17: fewer entries lent than meters opened.
pub fn jezynar_segment_search(
    image: &mut [u8; IMAGE],
    secs: f64,
    year: u32,
    month: u32,
    day: u32,
    hour: u32,
    minute: u32,
    allowance: u32,
    entries: &mut [u8],
    summary: &mut [u8; 12],
) -> u32
    ensures { Searches (search_by (clock_at_value secs year month day hour minute) allowance entries.old (decode_image image.old)) result image.old image.new entries.old entries.new summary.old summary.new }
{
    let clock = clock_at(secs, year, month, day, hour, minute);
    c_search::search_image(image, clock, allowance, entries, summary)
}

// ---- telegrams

// The telegram in front of some bytes: 0 complete, 1 + 256 * due incomplete, 2 to 6 invalid (checksum, stop, header,
// length, start).
pub fn jezynar_frame_parse(bytes: &[u8], out: &mut [u8; 16]) -> u32
    ensures { Parses (Rattle.frame.specs.Frame.parse bytes.now) result out.old out.new }
{
    c_frame::parse(bytes, out)
}

// Writes a telegram. 11: data over 252; 12: lent bytes too few.
pub fn jezynar_frame_encode(
    kind: u8,
    control: u8,
    address: u8,
    ci: u8,
    data: &[u8],
    lent: &mut [u8],
) -> u32
    ensures { Writes (write (telegram_by kind control address ci «data».now) lent.old) result lent.new }
{
    c_frame::encode(kind, control, address, ci, data, lent)
}
