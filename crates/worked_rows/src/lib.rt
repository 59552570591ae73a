//! Worked rows: lines with columns between tabs, the last of which is the answer that is wanted. A program answers the rows; its answers
//! are compared here, those that differ are told, and both are counted. Rows of what calls on monomials, numbers and polynomials answer stand
//! here as tests: each kind of row is a small function that says whether the call answers what is wanted; each generic function is called
//! at a type, through its bound.
//!
//! Proved: a text agrees with a row exactly where it is the one that the row has, and a tally counts each row once; the tests are safe and
//! end, and the gate runs them.
#![tactic(auto)]

#[cfg(test)]
mod fraction_rows;
#[cfg(test)]
mod monomial_rows;
#[cfg(test)]
mod polynomial_rows;
mod tally;
#[cfg(test)]
mod tests;
mod text;

use std::alloc::{AllocError, Global};
use std::env::Env;
use std::process::ExitCode;
use std::rt::Files;
use std::{env, fs, io};
pub use tally::Tally;
pub use text::{bytes_of, is_text, push_item};

/// What answers the lines of a file, one after another.
pub trait Answers {
    /// The answer to a row with these columns. None where they are no row.
    fn answer(&mut self, alloc: Global, columns: &[&str]) -> Result<Option<String>, AllocError>;
}

/// Compares the answers to the rows of each file that the program's words name, or of `rows.txt` where there is no word. It succeeds where
/// none differs. With the words `print FILE` it prints the answer to each row of the file.
pub fn run<R: Env + Files + Print + AllocGlobal, A: Answers>(rt: &R, answers: &mut A) -> ExitCode {
    match obey(rt, answers) {
        Ok(0) => ExitCode::SUCCESS,
        _ => ExitCode::FAILURE,
    }
}

// How many rows differ of those that the words ask for.
fn obey<R: Env + Files + Print + AllocGlobal, A: Answers>(
    rt: &R,
    answers: &mut A,
) -> io::Result<u64> {
    let words: Vec<String> = env::args(rt)?.skip(1).collect(rt.alloc())?;
    match words.as_slice() {
        [] => Ok(compare(rt, "rows.txt", answers)?.differ),
        [word, file] if word.as_str() == "print" => print_answers(rt, file.as_str(), answers),
        files => compare_all(rt, files, answers),
    }
}

fn compare_all<R: Files + Print + AllocGlobal, A: Answers>(
    rt: &R,
    files: &[String],
    answers: &mut A,
) -> io::Result<u64> {
    let mut differ = 0u64;
    for file in files {
        let tally = compare(rt, file.as_str(), answers)?;
        differ = differ.saturating_add(tally.differ);
    }
    Ok(differ)
}

fn print_answers<R: Files + Print + AllocGlobal, A: Answers>(
    rt: &R,
    file: &str,
    answers: &mut A,
) -> io::Result<u64> {
    let text = fs::read_to_string(rt, file)?;
    for line in text.lines() {
        let columns: Vec<&str> = line.split('\t').collect(rt.alloc())?;
        if let Some(answer) = answers.answer(rt.alloc(), columns.as_slice())? {
            println!(rt; "{answer}")?;
        }
    }
    Ok(0)
}

/// Compares the answers to the rows of a file, and tells each that differs, and at last how many agree. What a file has and what is told
/// lie outside, so nothing is said here of the count.
pub fn compare<R: Files + Print + AllocGlobal, A: Answers>(
    rt: &R,
    file: &str,
    answers: &mut A,
) -> io::Result<Tally> {
    let text = fs::read_to_string(rt, file)?;
    let mut tally = Tally::new();
    for line in text.lines() {
        let agrees = judge(rt, line, answers)?;
        tally.count(agrees);
    }
    println!(rt; "{} rows agree, {} differ", tally.agree, tally.differ)?;
    Ok(tally)
}

// Whether the answer to a row is the one that is wanted; none where the line is no row. Tells the answer where it is another.
fn judge<R: Print + AllocGlobal, A: Answers>(
    rt: &R,
    line: &str,
    answers: &mut A,
) -> io::Result<Option<bool>> {
    let columns: Vec<&str> = line.split('\t').collect(rt.alloc())?;
    let [.., wanted] = columns.as_slice() else {
        return Ok(None);
    };
    let Some(answer) = answers.answer(rt.alloc(), columns.as_slice())? else {
        return Ok(None);
    };
    let agrees = is_text(rt.alloc(), wanted, answer.as_str())?;
    if !agrees {
        println!(rt; "{line}\n    answers {answer}")?;
    }
    Ok(Some(agrees))
}
