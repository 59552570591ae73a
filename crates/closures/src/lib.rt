//! Closures: the ideals that polynomials generate together with all that becomes of them under the branches of a loop, whatever these are.
//!
//! Proved: the closure of a list is an ideal that has it and that each branch leads into itself, and lies in each such ideal that a list
//! generates; all of the list are invariants exactly where each of a list that generates the closure is 0 at the starts; a closing ends with the
//! reduced basis of the closure, or with the first word that counters one of the list, and has one end; with the cofactors of its divisions it
//! is a valid certificate; a list that is closed, and whose other monomials have independent values modulo a number, is the part up to its
//! degree of the basis of all invariants.
//!
//! Notion: closures.
#![tactic(auto)]

pub mod laws;
