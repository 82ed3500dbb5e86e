// What a caller is told in the end, and what a call or a step does on the way there.
ghost use Rattle.std.specs.Prelude.{◌≡◌};
ghost use Rattle.terms.specs.Numbers.{letter_of_answer};

use super::word::{Place, Word};

#[derive(Clone, Copy, Debug, PartialEq, Eq)]
pub enum Answer {
    Yes,
    No,
    Undecided,
}

// The letter by which an answer is told.
impl From<Answer> for char {
    ghost from_gives = { λ answer letter. letter ≡ letter_of_answer answer };

    fn from(answer: Answer) -> char {
        match answer {
            Answer::Yes => 'y',
            Answer::No => 'n',
            Answer::Undecided => 'u',
        }
    }
}

// What an accepted call or step did: it opened a phase with a word, or it gave the answer.
#[derive(Clone, Copy, Debug, PartialEq, Eq)]
pub enum Progress {
    Opened(Place, Word),
    Answered(Answer),
}
