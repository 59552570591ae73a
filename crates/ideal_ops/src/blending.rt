//! Two lists of polynomials as one, with a variable t in front: t times the one, and 1 - t times the other.
ghost use Rattle.std.specs.Prelude.{◌≡◌, ◌≤◌, IfOk};
ghost use Rattle.poly.specs.Seen.{terms_each};
ghost use Rattle.ideal_ops.specs.Blending.{blend_of, HaveT};
ghost use Rattle.ideal_ops.specs.Calls.{AreOver};
ghost use Rattle.ideal_ops.specs.Limits.{most_blended};

use monos::{Blocks, Grevlex};
use poly::{Poly, times_one_less_t, times_t};
use ring_laws::Field;
use std::alloc::{AllocError, Global};

/// The products of the one list with t, and then those of the other with 1 - t, in the order that has t in its first block.
pub fn blend<K: Field>(
    alloc: Global,
    arity: usize,
    left: &[Poly<K, Grevlex>],
    right: &[Poly<K, Grevlex>],
) -> Result<Vec<Poly<K, Blocks>>, AllocError>
    requires few { arity ≤ most_blended }
    requires left { AreOver arity left.now }
    requires right { AreOver arity right.now }
    ensures blend { IfOk result (λ gs. terms_each gs.items ≡ blend_of left.now right.now) }
    ensures like { IfOk result (λ gs. HaveT arity gs.items) }
{
    let mut gens = Vec::new(alloc);
    for p in left {
        gens.push(times_t(alloc, p)?)?;
    }
    for q in right {
        gens.push(times_one_less_t(alloc, q)?)?;
    }
    Ok(gens)
}
