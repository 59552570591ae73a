//! Whether numbers are a base.
ghost use Rattle.std.specs.Prelude.{◌≡◌, ◌<◌, ◌↔◌, unsigned_abs, IsTrue};
ghost use Rattle.algebra.specs.Each.{Each};
ghost use Rattle.algebra.specs.Gcd.{gcd};
ghost use Rattle.coprime_base.specs.Sizes.{sizes};
ghost use Rattle.expo.specs.Bases.{IsCoprimeBase};

use frac128::Whole;

/// Whether the number is above 1.
fn is_above_one(number: &Whole) -> bool
    ensures { IsTrue result ↔ (1 < unsigned_abs number.now.value) }
{
    number.value().unsigned_abs() > 1
}

/// Whether the number is below the other, and coprime to it.
fn is_apart(number: &Whole, other: &Whole) -> bool
    ensures { let a = unsigned_abs number.now.value in let b = unsigned_abs other.now.value in
        IsTrue result ↔ ((gcd a b ≡ 1) × (a < b)) }
{
    let common = number.gcd(other).value();
    common == 1 && number.value().unsigned_abs() < other.value().unsigned_abs()
}

/// Whether the number is above 1, below each of the others, and coprime to it.
fn is_first(number: &Whole, others: &[Whole]) -> bool
    ensures { let a = unsigned_abs number.now.value in IsTrue result ↔ ((1 < a)
        × (Each (λ b. gcd a b ≡ 1) (sizes others.now) × Each (λ b. a < b) (sizes others.now))) }
{
    let above = is_above_one(number);
    if !above {
        return false;
    }
    for other in others {
        let apart = is_apart(number, other);
        if !apart {
            return false;
        }
    }
    true
}

/// Whether the numbers ascend, are above 1 and pairwise coprime.
pub(crate) fn is_base(numbers: &[Whole]) -> bool
    ensures { IsTrue result ↔ IsCoprimeBase (sizes numbers.now) }
{
    for (i, number) in numbers.iter().enumerate() {
        let others = &numbers[i + 1..];
        let first = is_first(number, others);
        if !first {
            return false;
        }
    }
    true
}
