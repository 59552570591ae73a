// A file is read into bytes, or into the answer that it can't be.
ghost use Rattle.std.specs.Prelude.{◌≡◌, ◌++◌, IfOk, ℕ, List, string_bytes};
ghost use Rattle.io_edge.specs.Change.{◌⟶◌};
ghost use Rattle.io_edge.specs.Views.{answer_view};
ghost use Rattle.io_edge.specs.Refusals.{Refuses};
ghost use Rattle.io_edge.specs.Texts as texts;
ghost use Rattle.io_edge.specs.Outcome.{IsReadOr};

use crate::answer::{Answer, Status};
use crate::refusal::Refusal;
use crate::{Files, FilesError};
use std::alloc::{AllocError, Global};

/// The bytes of a file of at most `limit` bytes, or the answer that it can't be read or is too long.
pub fn read_file<F: Files>(
    alloc: Global,
    files: &mut F,
    name: &String,
    limit: usize,
) -> Result<Vec<u8>, Refusal>
    ensures read { IsReadOr (record { name = string_bytes name.now; limit = limit })
        (F.seen files.old ⟶ F.seen files.new) result }
    ensures told { (n : List ℕ) → (F.seen files.new).told n ≡ (F.seen files.old).told n }
{
    match files.read(alloc, name, limit) {
        Ok(bytes) => Ok(bytes),
        Err(e) => Err(unread(alloc, name, e)),
    }
}

// To a read that gave no bytes.
fn unread(alloc: Global, name: &String, why: FilesError) -> Refusal
    ensures { Refuses result (texts.unread (string_bytes name.now) why) }
{
    let cause = match why {
        FilesError::TooLong => "too long: ",
        FilesError::Failed => "read fault: ",
        FilesError::Memory => return Refusal::Memory,
    };
    Refusal::of(line(alloc, Status::ReadFault, cause, name.as_str()))
}

/// The answer of this status whose text is a line of the two parts.
pub fn line(alloc: Global, status: Status, cause: &str, name: &str) -> Result<Answer, AllocError>
    ensures { IfOk result (λ a. answer_view a ≡ texts.answer status (cause.now ++ name.now)) }
{
    let text = format!(in alloc; "{cause}{name}\n")?;
    Ok(Answer::new(status, text))
}
