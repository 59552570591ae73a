//! Graphs of transitions.

use frac128::Frac;
use monos::Grevlex;
use poly::Poly;

/// A transition from a node to a node, with so many unknowns, its zeros and its images: polynomials in the unknowns, which come first, and
/// the variables.
#[derive(Drop)]
pub struct Transition {
    pub from: usize,
    pub to: usize,
    pub unknowns: usize,
    pub zeros: Vec<Poly<Frac, Grevlex>>,
    pub images: Vec<Poly<Frac, Grevlex>>,
}

/// A point of a program: the offset of its token `while`, `for` or `assert`, and the goal of an assertion, which is its left side less its
/// right side, a polynomial in the variables.
#[derive(Drop)]
pub struct Point {
    pub at: usize,
    pub goal: Option<Poly<Frac, Grevlex>>,
}

/// So many variables, the points of the program in order, so many nodes, and the transitions. Node 0 is the start, the nodes of the points follow, and the last one is the end.
#[derive(Drop)]
pub struct Graph {
    pub variables: usize,
    pub points: Vec<Point>,
    pub nodes: usize,
    pub transitions: Vec<Transition>,
}
