//! The coarsest base: numbers with a common divisor are taken apart until none are left.
ghost use Rattle.std.specs.Prelude.{◌≡◌, ◌≢◌, ◌<◌, IfSome, IfNone, IfOk, OnOk, All, length, get_or};
ghost use Rattle.exponentials.specs.Base.{IsTheBase};
ghost use Rattle.algebra.specs.Gcd.{gcd as gcd_of};
ghost use Rattle.exponentials.proofs.Refining.{Settles};

use ring_laws::gcd;
use std::alloc::{AllocError, Global};

/// The coarsest base of the numbers that wait.
pub(crate) fn coarsest(alloc: Global, mut waiting: Vec<u128>) -> Result<Vec<u128>, AllocError>
    requires { All (λ x. 0 < x) waiting.items }
    ensures { IfOk result (λ base. IsTheBase waiting.items base.items) }
{
    let mut base = Vec::new(alloc);
    while let Some(number) = waiting.pop() {
        settle(&mut waiting, &mut base, number)?;
    }
    base.sort()?;
    Ok(base)
}

/// The number, which waited, goes into the base, or is taken apart with one of the base.
fn settle(waiting: &mut Vec<u128>, base: &mut Vec<u128>, number: u128) -> Result<(), AllocError>
    requires { 0 < number }
    ensures { OnOk result (Settles number
        waiting.old.items base.old.items waiting.new.items base.new.items) }
{
    if number == 1 {
        return Ok(());
    }
    match find(base.as_slice(), number) {
        None => {
            base.push(number)?;
        }
        Some(place) => {
            let other = base.remove(place);
            let common = gcd(number, other);
            waiting.push(other / common)?;
            waiting.push(common)?;
            waiting.push(number / common)?;
        }
    }
    Ok(())
}

/// The place of the first number of the base that has a common divisor above 1 with this one.
fn find(base: &[u128], number: u128) -> Option<usize>
    ensures none { IfNone result (All (λ b. gcd_of number b ≡ 1) base.now) }
    ensures some { IfSome result (λ i.
        (i < length base.now) × (gcd_of number (get_or base.now i 0) ≢ 1)) }
{
    for place in 0..base.len() {
        if gcd(number, base[place]) != 1 {
            return Some(place);
        }
    }
    None
}
