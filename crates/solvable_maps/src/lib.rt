//! Solvable maps: which variables use which, their ranks and classes, and closed forms of the state after n iterations of a branch, from some
//! number of iterations on.
//!
//! Proved: ranks exist exactly where no variable uses itself non-linearly round a cycle of uses, and the classes have one order; a branch
//! has at most one closed form, and has one where its classes split; it begins at 0 exactly where no eigenvalue is 0; made backward, it
//! undoes the iterations of the variables that stay.
//!
//! Notion: solvable maps and closed forms: the article.
#![tactic(auto)]

pub mod dependency_laws;
pub mod laws;
