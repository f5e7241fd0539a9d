// The telegram writer: a telegram written into lent bytes.
#![tactic(auto)]

ghost use Rattle.std.specs.Prelude.{◌≡◌};
ghost use Rattle.frame.specs.View.{telegram_of};
ghost use Rattle.frame_write.specs.Writer.{write};
ghost use Rattle.frame_write.specs.View.{refusal_number, written_of};

use frame::Frame;
use laws::answer::Numbered;
use laws::refused;

mod writing; // writing.rt: each kind of telegram written into lent bytes

// Why the writer refuses.
#[derive(Clone, Copy, PartialEq, Eq, Debug)]
pub enum WriteError {
    DataTooLong,
    NoRoom,
}

impl Numbered for WriteError {
    ghost number_of = { refusal_number };

    fn number(self) -> u32 {
        match self {
            WriteError::DataTooLong => refused::DATA,
            WriteError::NoRoom => refused::ROOM,
        }
    }
}

// The telegram into the first of the lent bytes: how many were written. A refusal writes nothing.
pub fn encode(f: Frame<'_>, lent: &mut [u8]) -> Result<usize, WriteError>
    ensures { written_of result lent.new ≡ write (telegram_of f.entry) lent.old }
{
    match f {
        Frame::Ack => writing::encode_ack(lent),
        Frame::Short { control, address } => writing::encode_short(control, address, lent),
        Frame::Long {
            control,
            address,
            ci,
            data,
        } => writing::encode_long(control, address, ci, data, lent),
    }
}
