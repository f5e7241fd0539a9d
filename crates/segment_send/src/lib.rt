// Send: a piece of bytes and the clock, to a segment in its image.
#![tactic(auto)]

ghost use Rattle.std.specs.Prelude.{◌≡◌, ◌++◌, ◌≤◌, length};
ghost use Rattle.frame.specs.Frame.{due, parse};
ghost use Rattle.segment.specs.Plain.{with_input};
ghost use Rattle.segment_image.specs.Image.{decode_image};
ghost use Rattle.segment_send.specs.Steps.{handled_all};
ghost use Rattle.segment_send.specs.Send.{send};
ghost use Rattle.segment_send.specs.ProgramSend.{ComesOrStays};
ghost use Rattle.segment_send.specs.declared.SendError.TheVariants as variants;
ghost use Rattle.segment_send.specs.View.{send_error_number, sending_number_value, sending_due_value, SentImage};

use frame::ParseOutcome;
use laws::answer::Numbered;
use laws::refused;
use segment_image::IMAGE;
use segment_places::input::PIECE;
use segment_places::queue::QueueFull;
use segment_places::{head, input};
use time_clock::{Clock, good_clock};

mod telegrams; // telegrams.rt: telegrams, one after the other

// Why a send is refused: 13, 14 and 15 of the places of refusal.
#[derive(Clone, Copy, PartialEq, Eq, Debug)]
pub enum SendError {
    PieceTooLong,
    ClockOutOfRange,
    QueueFull,
}

impl Numbered for SendError {
    ghost number_of = { send_error_number };

    fn number(self) -> u32 {
        match self {
            SendError::PieceTooLong => refused::PIECE,
            SendError::ClockOutOfRange => refused::CLOCK,
            SendError::QueueFull => refused::QUEUE,
        }
    }
}

impl From<QueueFull> for SendError {
    ghost from_gives = { λ _ e. e ≡ variants.QueueFull };

    fn from(_full: QueueFull) -> Self {
        Self::QueueFull
    }
}

// How many bytes are due of an incomplete telegram.
fn due_of(bytes: &[u8]) -> u16
    ensures { result ≡ due (parse bytes.now) }
{
    match frame::parse(bytes) {
        ParseOutcome::Complete { .. } => 0,
        ParseOutcome::Incomplete { due } => due,
        ParseOutcome::Invalid(_) => 0,
    }
}

// The piece joins what waits, and all of it is handled.
fn handle_joined(image: &mut [u8; IMAGE], piece: &[u8], clock: Clock) -> Result<(), QueueFull>
    requires { length piece.now ≤ 1024 }
    ensures { ComesOrStays (handled_all clock (with_input ((decode_image image.old).input ++ piece.now) (decode_image image.old))) image.old result image.new }
{
    let line = input::with_piece(image, piece);
    let end = head::waiting_of(image) + piece.len();
    telegrams::handle_all(image, &line[..end], clock)
}

// Where nothing waits the piece is all there is.
fn handle_piece(image: &mut [u8; IMAGE], piece: &[u8], clock: Clock) -> Result<(), QueueFull>
    requires { length piece.now ≤ 1024 }
    ensures { ComesOrStays (handled_all clock (with_input ((decode_image image.old).input ++ piece.now) (decode_image image.old))) image.old result image.new }
{
    if head::waiting_of(image) == 0 {
        return telegrams::handle_all(image, piece, clock);
    }
    handle_joined(image, piece, clock)
}

// The piece joins the waiting input, and complete telegrams are handled in turn; how many bytes are due of what waits. A
// refused send changes no byte.
pub fn send(image: &mut [u8; IMAGE], piece: &[u8], clock: Clock) -> Result<u16, SendError>
    ensures { SentImage (send piece.now clock (decode_image image.old)) (sending_number_value result) (sending_due_value result) image.old image.new }
{
    if PIECE < piece.len() {
        return Err(SendError::PieceTooLong);
    }
    if !good_clock(clock) {
        return Err(SendError::ClockOutOfRange);
    }
    handle_piece(image, piece, clock)?;
    let waits = input::waiting(image);
    Ok(due_of(waits))
}
