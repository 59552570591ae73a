//! Programs as values: steps, guards, statements and their blocks, and the graph of transitions that is formed from one.
//!
//! Proved: a `Program` is well formed, and its blocks stand at most 256 deep. The graph that is formed is that of the program's code, with
//! collected polynomials, and the goal of each assertion is the difference of its sides; each refusal is the first operation that passes a
//! limit or is too wide, or the first count that is past, in the order of forming.
//!
//! Notion: programs as syntax; open paths and the graph of a program.
#![tactic(auto)]

mod forming;
mod front;
mod graph;
mod inverse;
mod path;
mod program;
mod statement;
mod syntax;
mod widening;

pub use graph::{Graph, Point, Transition};
pub use program::Program;
pub use statement::Statement;
pub use syntax::{Assignment, Comparison, Divisor, Guard, Step};
