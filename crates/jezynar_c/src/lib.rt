// The exports of the static library libjezynar.a (a crate of their own, since a `staticlib` is no library that other
// crates can use): each is the function of its name in the crate jezynar, with the same clauses.
#![tactic(auto)]

ghost use Rattle.std.specs.Prelude.{◌≡◌, ◌+◌, ◌*◌, ◌/◌, ◌%◌, ◌<◌};
ghost use Rattle.frame.specs.Frame;
ghost use Rattle.frame_write.specs.Writer.{write};
ghost use Rattle.list_check.specs.Refusals.{refusal_number_value, refusal_index_value};
ghost use Rattle.list_open.specs.Opening.{most_meters};
ghost use Rattle.time_clock.specs.Fields.{clock_at_value};
ghost use Rattle.segment.specs.Plain.{blank};
ghost use Rattle.segment.specs.Calls;
ghost use Rattle.segment_send.specs.Send;
ghost use Rattle.segment_send.specs.View.{SentImage};
ghost use Rattle.segment_image.specs.Image.{decode_image, image_len, IsImage};
ghost use Rattle.segment_image.specs.Answers.{DoneImage, OpenedImage, ReceivedImage, LeftImage};
ghost use Rattle.segment_export.specs.Export.{export_into_value};
ghost use Rattle.segment_export.specs.View.{exported_by};
ghost use Rattle.c_search.specs.Searches.{search_by, Searches};
ghost use Rattle.c_frame.specs.Telegrams.{Parses, telegram_by, Writes};

use segment_image::IMAGE;

// How many bytes an image has.
#[unsafe(no_mangle)]
pub extern "C" fn jezynar_segment_image_len() -> usize
    ensures { result ≡ image_len }
{
    jezynar::jezynar_segment_image_len()
}

// No meters, 2400 Bd, origin 0.
#[unsafe(no_mangle)]
pub extern "C" fn jezynar_segment_new(image: &mut [u8; IMAGE])
    ensures { IsImage blank image.new }
{
    jezynar::jezynar_segment_new(image)
}

// The one image of the segment that the bytes mean, in their place.
#[unsafe(no_mangle)]
pub extern "C" fn jezynar_segment_tidy(image: &mut [u8; IMAGE])
    ensures { IsImage (decode_image image.old) image.new }
{
    jezynar::jezynar_segment_tidy(image)
}

// Empties the queue alone.
#[unsafe(no_mangle)]
pub extern "C" fn jezynar_segment_clear(image: &mut [u8; IMAGE])
    ensures { LeftImage (Calls.clear (decode_image image.old)) image.old image.new }
{
    jezynar::jezynar_segment_clear(image)
}

// Sets the bus baud and empties the input. 10: no rate.
#[unsafe(no_mangle)]
pub extern "C" fn jezynar_segment_set_baud(image: &mut [u8; IMAGE], baud: u32) -> u32
    ensures { DoneImage (Calls.change_baud baud (decode_image image.old)) result image.old image.new }
{
    jezynar::jezynar_segment_set_baud(image, baud)
}

// Opens the segment of a list. Refused with 1 to 10; 4 to 9 name the first record that fails.
#[unsafe(no_mangle)]
pub extern "C" fn jezynar_segment_open(
    image: &mut [u8; IMAGE],
    list: &[u8],
    baud: u32,
    practice: bool,
    origin: f64,
) -> u32
    ensures { OpenedImage list.now baud practice origin (result % 256) (result / 256) image.old image.new }
{
    jezynar::jezynar_segment_open(image, list, baud, practice, origin)
}

// Sends a piece at a clock. 13: piece over 1,024; 14: a clock field out of range; 15: queue would pass 4,096.
// Accepted, it says how many bytes are due of what waits.
#[unsafe(no_mangle)]
pub extern "C" fn jezynar_segment_send(
    image: &mut [u8; IMAGE],
    piece: &[u8],
    secs: f64,
    year: u32,
    month: u32,
    day: u32,
    hour: u32,
    minute: u32,
) -> u32
    ensures { SentImage (Send.send piece.now (clock_at_value secs year month day hour minute) (decode_image image.old)) (result / 65536) (result % 65536) image.old image.new }
{
    jezynar::jezynar_segment_send(image, piece, secs, year, month, day, hour, minute)
}

// Hands out the least of 32, the lent length and the queued bytes.
#[unsafe(no_mangle)]
pub extern "C" fn jezynar_segment_receive(image: &mut [u8; IMAGE], lent: &mut [u8]) -> usize
    ensures { ReceivedImage (Calls.receive lent.old (decode_image image.old)) result lent.new image.old image.new }
{
    jezynar::jezynar_segment_receive(image, lent)
}

// Writes the present meters as a list, to be opened at the bus baud. 18: a primary above 250; 12: lent bytes too few.
#[unsafe(no_mangle)]
pub extern "C" fn jezynar_segment_export(image: &[u8; IMAGE], lent: &mut [u8]) -> u32
    ensures { exported_by (result / 65536) (result % 65536) lent.new ≡ export_into_value lent.old (decode_image image.now) }
{
    jezynar::jezynar_segment_export(image, lent)
}

// ---- the search

// Searches with an allowance of probes; 16 lent bytes for each entry.
// 14: a clock field out of range; 16: input or queue not empty; 17: fewer entries lent than meters opened.
#[unsafe(no_mangle)]
pub extern "C" fn jezynar_segment_search(
    image: &mut [u8; IMAGE],
    secs: f64,
    year: u32,
    month: u32,
    day: u32,
    hour: u32,
    minute: u32,
    allowance: u32,
    entries: &mut [u8],
    summary: &mut [u8; 12],
) -> u32
    ensures { Searches (search_by (clock_at_value secs year month day hour minute) allowance entries.old (decode_image image.old)) result image.old image.new entries.old entries.new summary.old summary.new }
{
    jezynar::jezynar_segment_search(
        image, secs, year, month, day, hour, minute, allowance, entries, summary,
    )
}

// ---- telegrams

// The telegram in front of some bytes: 0 complete, 1 + 256 * due incomplete, 2 to 6 invalid (checksum, stop, header,
// length, start).
#[unsafe(no_mangle)]
pub extern "C" fn jezynar_frame_parse(bytes: &[u8], out: &mut [u8; 16]) -> u32
    ensures { Parses (Rattle.frame.specs.Frame.parse bytes.now) result out.old out.new }
{
    jezynar::jezynar_frame_parse(bytes, out)
}

// Writes a telegram. 11: data over 252; 12: lent bytes too few.
#[unsafe(no_mangle)]
pub extern "C" fn jezynar_frame_encode(
    kind: u8,
    control: u8,
    address: u8,
    ci: u8,
    data: &[u8],
    lent: &mut [u8],
) -> u32
    ensures { Writes (write (telegram_by kind control address ci «data».now) lent.old) result lent.new }
{
    jezynar::jezynar_frame_encode(kind, control, address, ci, data, lent)
}
