// Full certificates and their parts.
use frac128::{Frac, Whole};
use monos::{Blocks, Grevlex};
use poly::Poly;

/// Polynomials in descending order.
pub type Polys = Vec<Poly<Frac, Grevlex>>;

/// Polynomials in the order that eliminates the variables in front.
pub type BlockPolys = Vec<Poly<Frac, Blocks>>;

/// A base, and a polynomial in n, s, the u, the v and the variables for each variable.
#[derive(Drop)]
pub struct FullForm {
    pub base: Vec<Whole>,
    pub polys: Polys,
}

/// Polynomials, and for each equation of `init` its cofactors by them.
#[derive(Drop)]
pub struct FullStart {
    pub out: Polys,
    pub links: Vec<Polys>,
}

/// An elimination that is shown by a Gröbner basis: the basis; for each polynomial that it begins
/// with its cofactors; for each pair those of its S-polynomial; what it gives; and for each element
/// without the variables in front its cofactors by that.
#[derive(Drop)]
pub struct FullStage {
    pub list: BlockPolys,
    pub gens: Vec<BlockPolys>,
    pub pairs: Vec<BlockPolys>,
    pub out: Polys,
    pub links: Vec<Polys>,
}

/// The orbit of a branch, and, but for the first branch, the intersection with what the branches
/// before gave.
#[derive(Drop)]
pub struct FullBranch {
    pub orbit: FullStage,
    pub meet: Option<FullStage>,
}

/// A certificate; a form for each branch; of what the polynomials of `init` are made; and for each
/// round what it has of each branch.
#[derive(Drop)]
pub struct FullCert {
    pub basis: Polys,
    pub steps: Vec<Vec<Polys>>,
    pub forms: Vec<FullForm>,
    pub start: FullStart,
    pub rounds: Vec<Vec<FullBranch>>,
}
