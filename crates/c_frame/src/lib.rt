// Telegrams read and written, as numbers and bytes.
#![tactic(auto)]

ghost use Rattle.std.specs.Prelude.{◌≡◌, List, [], ◌∷◌, ◌++◌, ℕ, ◌+◌, ◌*◌, ◌<◌};
ghost use Rattle.numbers.specs.Values.{little};
ghost use Rattle.frame_write.specs.Writer.{write};
ghost use Rattle.frame.specs.Frame as definitions;
ghost use Rattle.frame.specs.View.{telegram_of, why_of};
ghost use Rattle.frame_write.specs.View.{written_number, written_count};
ghost use Rattle.c_frame.specs.Telegrams.{why_number_value, head_of, telegram_by, Parses, Writes};

use frame::{Frame, ParseOutcome, Why};
use frame_write::WriteError;
use laws::answer::Numbered;

// The reasons by their numbers in the C interface.
fn why_number(why: Why) -> u32
    ensures { result ≡ why_number_value (why_of why) }
{
    match why {
        Why::Checksum => 2,
        Why::Stop => 3,
        Why::Header => 4,
        Why::Length => 5,
        Why::Start => 6,
    }
}

// The kind, C, A and CI, as the C interface has them; 0 where there is none.
#[tactic(auto, unfolding(crate::specs::Telegrams::head_of))]
fn head_of(frame: Frame<'_>) -> [u8; 4]
    ensures { result ≡ head_of (telegram_of frame.entry) }
{
    match frame {
        Frame::Ack => [0, 0, 0, 0],
        Frame::Short { control, address } => [1, control, address, 0],
        Frame::Long {
            control,
            address,
            ci,
            ..
        } => [2, control, address, ci],
    }
}

// The 16 bytes in which the C interface describes a telegram.
fn description(head: [u8; 4], count: usize, used: usize) -> [u8; 16]
    ensures { result ≡ head ++ little 4 count ++ little 4 used ++ 0 ∷ 0 ∷ 0 ∷ 0 ∷ [] }
{
    let [kind, control, address, ci] = head;
    let [n0, n1, n2, n3, ..] = count.to_le_bytes();
    let [u0, u1, u2, u3, ..] = used.to_le_bytes();
    [
        kind, control, address, ci, n0, n1, n2, n3, u0, u1, u2, u3, 0, 0, 0, 0,
    ]
}

// The telegram in front of some bytes: 0 complete, 1 + 256 * due incomplete, 2 to 6 invalid (checksum, stop, header,
// length, start).
pub fn parse(bytes: &[u8], out: &mut [u8; 16]) -> u32
    ensures { Parses (definitions.parse bytes.now) result out.old out.new }
{
    match frame::parse(bytes) {
        ParseOutcome::Complete { frame, used } => {
            *out = description(head_of(frame), frame.user_data().len(), used);
            0
        }
        ParseOutcome::Incomplete { due } => 1 + 256 * u32::from(due),
        ParseOutcome::Invalid(why) => why_number(why),
    }
}

// The C interface gives the kinds their numbers.
#[tactic(auto, unfolding(crate::specs::Telegrams::telegram_by))]
fn frame_by(kind: u8, control: u8, address: u8, ci: u8, data: &[u8]) -> Frame<'_>
    ensures { telegram_of result ≡ telegram_by kind control address ci «data».now }
{
    match kind {
        0 => Frame::Ack,
        1 => Frame::Short { control, address },
        _ => Frame::Long {
            control,
            address,
            ci,
            data,
        },
    }
}

// number * 65536 + bytes written, since a C call answers one number. Apart from `jezynar::packed_count`, since the writer's
// count is a `usize`.
#[tactic(auto, using(crate::proofs::TelegramLaws::refusal_most))]
fn packed_written(w: Result<usize, WriteError>) -> u32
    requires { written_count w < 65536 }
    ensures { result ≡ written_number w * 65536 + written_count w }
{
    match w {
        Ok(n) => n as u32,
        Err(e) => e.number() * 65536,
    }
}

// Writes a telegram. 11: data over 252; 12: lent bytes too few.
pub fn encode(kind: u8, control: u8, address: u8, ci: u8, data: &[u8], lent: &mut [u8]) -> u32
    ensures { Writes (write (telegram_by kind control address ci «data».now) lent.old) result lent.new }
{
    let frame = frame_by(kind, control, address, ci, data);
    packed_written(frame_write::encode(frame, lent))
}
