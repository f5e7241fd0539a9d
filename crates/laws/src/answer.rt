// What a call answers, as the numbers that the C interface gives.
ghost use Rattle.std.specs.Prelude.{◌≡◌, ◌<◌, ℕ};
ghost use Rattle.laws.specs.Refusal.{number_of_answer, count_of_answer};

use crate::refused;

// An error that has a number in the table of refusals.
pub trait Numbered: Copy {
    ghost number_of: { Self → ℕ };

    // Its number. A byte holds it.
    fn number(self) -> u32
        ensures { (result ≡ number_of self) × (result < 256) };
}

// The number of an answer: 0, or that of the refusal.
pub fn number<A: Copy, E: Numbered>(answer: Result<A, E>) -> u32
    ensures { (result ≡ number_of_answer E.number_of answer) × (result < 256) }
{
    match answer {
        Ok(_) => refused::NOT_REFUSED,
        Err(refusal) => refusal.number(),
    }
}

// How many bytes an answer tells of: none, where it is a refusal.
pub fn count<E: Copy>(answer: Result<u16, E>) -> u16
    ensures { result ≡ count_of_answer answer }
{
    answer.unwrap_or(0)
}
