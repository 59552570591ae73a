// A status and a text, and how they are delivered.
ghost use Rattle.std.specs.Prelude.{◌≡◌, ◌-◌, ◌<◌};
ghost use Rattle.io_edge.specs.Outside.{most_counted};
ghost use Rattle.io_edge.specs.Delivery.{Delivers};
ghost use Rattle.io_edge.specs.Change.{◌⟶◌};
ghost use Rattle.io_edge.specs.Outcome.{reply_of, answer_to};
ghost use Rattle.io_edge.specs.Texts.{with_text};

use crate::{Sink, write_whole};
use std::alloc::AllocError;

/// How a call ended. The program ends with its number.
#[derive(Clone, Copy, PartialEq, Eq)]
pub enum Status {
    /// The question has the answer yes: there is a basis, or the certificate is valid, or the equation holds.
    Yes,
    /// The answer is no: an identity of the certificate fails, or the equation doesn't hold.
    No,
    /// The arguments are no command.
    Usage,
    /// A file isn't of its form.
    Fault,
    /// A number doesn't fit into 128 bits.
    Wide,
    /// The budget is exhausted.
    Budget,
    /// There is no memory.
    Memory,
    /// A file can't be read, or is too long.
    ReadFault,
    /// The sink failed.
    WriteFault,
}

impl Status {
    ghost use Rattle.io_edge.specs.Statuses.{code_of};

    /// The number that the program ends with, 0 to 8 in the order of the variants.
    pub fn code(&self) -> u8
        ensures { result ≡ code_of self.now }
    {
        match self {
            Status::Yes => 0,
            Status::No => 1,
            Status::Usage => 2,
            Status::Fault => 3,
            Status::Wide => 4,
            Status::Budget => 5,
            Status::Memory => 6,
            Status::ReadFault => 7,
            Status::WriteFault => 8,
        }
    }
}

/// A status and the text that is written with it.
#[derive(Drop)]
pub struct Answer {
    pub status: Status,
    pub text: Vec<u8>,
}

impl Answer {
    ghost use Rattle.std.specs.Prelude.{string_bytes};
    ghost use Rattle.io_edge.specs.Views.{answer_view};
    ghost use Rattle.io_edge.specs.Texts.{with_text};

    /// The answer of this status with this text.
    pub fn new(status: Status, text: String) -> Answer
        ensures { answer_view result ≡ with_text status (string_bytes text) }
    {
        Answer {
            status,
            text: text.into_bytes(),
        }
    }
}

/// The result of a command that was asked for, by its answer.
pub fn reply(answer: Result<Answer, AllocError>) -> Result<Option<Answer>, AllocError>
    ensures { result ≡ reply_of answer }
{
    match answer {
        Ok(answer) => Ok(Some(answer)),
        Err(error) => Err(error),
    }
}

const MEMORY: &[u8] = b"memory\n";

/// Writes the answer, or the usage line where the arguments are no command, or that memory is wanting; and gives its
/// status, or `WriteFault` where the sink failed.
pub fn finish<S: Sink>(
    out: &mut S,
    usage: &[u8],
    answer: Result<Option<Answer>, AllocError>,
) -> Status
    requires { (S.seen out.old).faults < most_counted }
    ensures { Delivers (S.seen out.old ⟶ S.seen out.new)
        (answer_to (with_text Status.Usage usage.now) answer) result }
{
    match answer {
        Ok(Some(answer)) => deliver(out, answer.status, &answer.text),
        Ok(None) => deliver(out, Status::Usage, usage),
        Err(_) => deliver(out, Status::Memory, MEMORY),
    }
}

// Writes the whole text, and answers the status, or `WriteFault` where the sink failed.
fn deliver<S: Sink>(out: &mut S, status: Status, text: &[u8]) -> Status
    requires { (S.seen out.old).faults < most_counted }
    ensures { Delivers (S.seen out.old ⟶ S.seen out.new) (with_text status text.now) result }
{
    match write_whole(out, text) {
        Ok(()) => status,
        Err(_) => Status::WriteFault,
    }
}
