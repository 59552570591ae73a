//! The exponents of n, s, u, v and the variables in a monomial.
ghost use Rattle.std.specs.Prelude.{◌≡◌, ◌≤◌, ◌++◌, length, IfOk, OnOk};
ghost use Rattle.exponentials.specs.Keys.{excess};
ghost use Rattle.solvable_maps.specs.Iterations.{width};
ghost use Rattle.solvable_maps.specs.NormalExponents.{normal_exponents, inverse_form_exponents};

use monos::Mono;
use std::alloc::{AllocError, Global};

/// The monomial with s s and each u_j v_j replaced by 1, where the base has `count` numbers.
pub(crate) fn normal_monomial(alloc: Global, mono: &Mono, count: usize) -> Result<Mono, AllocError>
    requires { width count 0 ≤ length mono.now }
    ensures ok { IfOk result (λ found. found ≡ normal_exponents count mono.now) }
{
    let list = mono.exponents();
    let (front, others) = list.as_slice().split_at(2);
    let (up, others) = others.split_at(count);
    let (down, variables) = others.split_at(count);
    let mut exponents = vec![in alloc; front[0], front[1] % 2]?;
    push_left(&mut exponents, up, down)?;
    push_left(&mut exponents, down, up)?;
    exponents.extend_from_slice(variables)?;
    Mono::new(alloc, &exponents)
}

/// The monomial with u_j and v_j exchanged for each j, where the base has `count` numbers.
pub(crate) fn monomial_inverse_form(
    alloc: Global,
    mono: &Mono,
    count: usize,
) -> Result<Mono, AllocError>
    requires { width count 0 ≤ length mono.now }
    ensures ok { IfOk result (λ found. found ≡ inverse_form_exponents count mono.now) }
{
    let list = mono.exponents();
    let (front, others) = list.as_slice().split_at(2);
    let (up, others) = others.split_at(count);
    let (down, variables) = others.split_at(count);
    let mut exponents = front.to_vec(alloc)?;
    exponents.extend_from_slice(down)?;
    exponents.extend_from_slice(up)?;
    exponents.extend_from_slice(variables)?;
    Mono::new(alloc, &exponents)
}

/// Puts behind the others what some exponents have more than others at their places.
fn push_left(out: &mut Vec<u16>, these: &[u16], others: &[u16]) -> Result<(), AllocError>
    ensures { OnOk result (out.new.items ≡ out.old.items ++ excess these.now others.now) }
{
    let (Some((one, these)), Some((other, others))) = (these.split_first(), others.split_first())
    else {
        return Ok(());
    };
    out.push(one.saturating_sub(*other))?;
    push_left(out, these, others)
}
