//! Worked rows of computations: what the calls that analyse one branch answer to given inputs (`data/branches.txt`), and what division,
//! completion, tidying, the operations on ideals and the meter do (`data/ideals.txt`). The wanted answers were computed by hand, by other
//! systems, or by `bench/branch_rows.py` and `bench/ideal_rows.py`, which go other ways or follow the rules word by word.
//!
//! Proved: that it is safe and ends; the gate compares what it prints.
//!
//! Each line of these files, or of those that are named, has columns between tabs: what is called, what it is given, and the answer that is
//! wanted; the heads of the files say what each call has. The program tells each row that has another answer, and behind each file how many
//! rows agree. With the words `print FILE` it prints the answers to the rows of a file.
#![tactic(auto)]

mod bases;
mod calls;
mod columns;
mod dense;
mod exponential;
mod lists;
mod maps;
mod matrices;
mod meters;
mod number;
mod row_error;
mod rows;

use rows::Row;
use std::alloc::{AllocError, Global};
use std::process::ExitCode;
use worked_rows::{Answers, run};

#[derive(Drop)]
struct Computations;

impl Answers for Computations {
    fn answer(&mut self, alloc: Global, columns: &[&str]) -> Result<Option<String>, AllocError> {
        match columns {
            [call, values @ .., _] => {
                let call = *call;
                let row = Row {
                    alloc,
                    call,
                    values,
                };
                Ok(Some(row.answer()?))
            }
            _ => Ok(None),
        }
    }
}

fn main(rt: HostRuntime) -> ExitCode {
    run(&rt, &mut Computations)
}
