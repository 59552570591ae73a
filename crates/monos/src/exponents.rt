//! The exponents of a monomial as a list by value.
ghost use Rattle.std.specs.Prelude.{◌≡◌, ◌≤◌, take};
ghost use Rattle.monos.specs.Variables.{most_inline, most_double};

use std::marker::Model;

/// The exponents of a monomial, the first variable's first.
#[derive(Drop)]
pub struct Exponents<'a> {
    list: ExponentList<'a>,
}

#[derive(Drop)]
enum ExponentList<'a> {
    InPlace([u16; 16], usize),
    InTwo([u16; 32], usize),
    Behind(&'a [u16]),
}

impl<'a> Model for Exponents<'a> {
    ghost use Rattle.std.specs.Prelude.{List, ℕ};

    ghost Value = { List ℕ };

    ghost use Rattle.monos.specs.ExponentLists.{items_of, IsProperList};

    ghost view = { λ e. items_of e.list };

    ghost invariant = { λ e. IsProperList e.list };
}

impl<'a> Exponents<'a> {
    /// The first `count` of these.
    pub(crate) fn in_place(list: [u16; 16], count: usize) -> Exponents<'a>
        requires { count ≤ most_inline }
        ensures { result ≡ take count list }
    {
        Exponents {
            list: ExponentList::InPlace(list, count),
        }
    }

    /// The first `count` of these.
    pub(crate) fn in_two(list: [u16; 32], count: usize) -> Exponents<'a>
        requires { count ≤ most_double }
        ensures { result ≡ take count list }
    {
        Exponents {
            list: ExponentList::InTwo(list, count),
        }
    }

    /// The exponents in a borrowed list.
    pub(crate) fn of_slice(list: &'a [u16]) -> Exponents<'a>
        ensures { result ≡ list.now }
    {
        Exponents {
            list: ExponentList::Behind(list),
        }
    }

    /// The exponents.
    pub fn as_slice(&self) -> &[u16]
        ensures { result.now ≡ self.now }
    {
        match &self.list {
            ExponentList::InPlace(list, count) => &list[..*count],
            ExponentList::InTwo(list, count) => &list[..*count],
            ExponentList::Behind(list) => *list,
        }
    }
}
