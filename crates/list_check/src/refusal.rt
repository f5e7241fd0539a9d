// Why an opening is refused, with its number and index.
ghost use Rattle.std.specs.Prelude.{◌≡◌};
ghost use Rattle.list_check.specs.Refusals.{error_number, error_index, refusal_of_layout, refusal_number_value, refusal_index_value};

use crate::Failing;
use laws::answer::Numbered;
use laws::refused;
use list::LayoutError;

// Why an opening is refused: by 1, 2, 3 or 10, or by 4 to 9 and a record's index.
#[derive(Clone, Copy, PartialEq, Eq, Debug)]
pub enum Refusal {
    Version,
    Length,
    Capacity,
    AtRecord(Failing, usize),
    Baud,
}

impl Numbered for Refusal {
    ghost number_of = { error_number };

    fn number(self) -> u32 {
        match self {
            Refusal::Version => refused::VERSION,
            Refusal::Length => refused::LENGTH,
            Refusal::Capacity => refused::CAPACITY,
            Refusal::AtRecord(failing, _) => failing.number(),
            Refusal::Baud => refused::BAUD,
        }
    }
}

impl Refusal {
    // The index of the record that is named; elsewhere 0, as the C interface has it.
    pub fn index(self) -> usize
        ensures { result ≡ error_index self }
    {
        match self {
            Refusal::AtRecord(_, index) => index,
            _ => 0,
        }
    }
}

impl From<LayoutError> for Refusal {
    ghost from_gives = { λ e r. r ≡ refusal_of_layout e };

    fn from(error: LayoutError) -> Refusal {
        match error {
            LayoutError::Unversioned => Refusal::Version,
            LayoutError::Unfit => Refusal::Length,
        }
    }
}

// The index of an opening's answer; 0 for an accepted one, as the C interface has it.
pub fn refusal_index(answer: Result<(), Refusal>) -> usize
    ensures { result ≡ refusal_index_value answer }
{
    match answer {
        Ok(()) => 0,
        Err(refusal) => refusal.index(),
    }
}
