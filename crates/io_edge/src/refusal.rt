// What a command ends with that can't go on.
ghost use Rattle.std.specs.Prelude.{◌≡◌};
ghost use Rattle.io_edge.specs.Views.{seen_answer};
ghost use Rattle.io_edge.specs.Refusals.{seen_refusal};

use crate::answer::Answer;
use std::alloc::AllocError;

/// What a command ends with before it has what it needs.
#[derive(Drop)]
pub enum Refusal {
    /// This answer.
    Answer(Answer),
    /// Want of memory for one.
    Memory,
}

impl Refusal {
    /// The refusal with this answer.
    pub fn of(answer: Result<Answer, AllocError>) -> Refusal
        ensures { seen_refusal result ≡ seen_answer answer }
    {
        match answer {
            Ok(answer) => Refusal::Answer(answer),
            Err(_) => Refusal::Memory,
        }
    }

    /// Its answer.
    pub fn into_answer(self) -> Result<Answer, AllocError>
        ensures { seen_answer result ≡ seen_refusal self }
    {
        match self {
            Refusal::Answer(answer) => Ok(answer),
            Refusal::Memory => Err(AllocError),
        }
    }
}
