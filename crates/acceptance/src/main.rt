//! Worked rows: what public calls answer to given inputs. The wanted answers were computed by hand or by other tools; those of
//! `data/loops.txt` by hand, by another system, or by `bench/loops.py` and `bench/journals.py`, from closed forms of their own.
//!
//! Proved: that it is safe and ends; the gate compares what it prints.
//!
//! Each line of `data/rows.txt`, `data/loops.txt` and `data/full.txt` has columns between tabs: what is called, what it is given, and the
//! answer that is wanted. Lines `LOOP`, `CERT` and `FAULTS` give these files, and the faults of the outside, to the calls below them. In
//! files and answers `~` is the end of a line. The program tells each row that has another answer, and behind each file how many rows
//! agree. With the words `print FILE` it prints the answers to the rows of a file.
#![tactic(auto)]

mod calls;
mod loop_answers;
mod maps;
mod outside;
mod rows;
mod texts;

use calls::Given;
use rows::answer;
use std::alloc::{AllocError, Global};
use std::process::ExitCode;
use worked_rows::{Answers, run};

// The calls over the system's files, and what is given to them.
#[derive(Drop)]
struct PublicCalls<'a> {
    system: &'a HostRuntime,
    given: Given,
}

impl Answers for PublicCalls<'_> {
    fn answer(&mut self, alloc: Global, columns: &[&str]) -> Result<Option<String>, AllocError> {
        if self.given.take(alloc, columns)? {
            return Ok(None);
        }
        match columns {
            [call, values @ .., _] => Ok(Some(answer(self.system, &self.given, call, values)?)),
            _ => Ok(None),
        }
    }
}

fn main(rt: HostRuntime) -> ExitCode {
    let given = Given::new(rt.alloc());
    run(&rt, &mut PublicCalls { system: &rt, given })
}
