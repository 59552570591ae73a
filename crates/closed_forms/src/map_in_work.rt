//! A map in work: what was made of it so far, and its closed form.
ghost use Rattle.std.specs.Prelude.{◌≡◌, ◌≤◌, ◌<◌, [], All, length, IsOk, IfOk, OnOk, IfErr};
ghost use Rattle.poly.specs.Seen.{terms_each};
ghost use Rattle.coprime_base.specs.Sizes.{sizes};
ghost use Rattle.solvable_maps.specs.Class.{Ascends};
ghost use Rattle.solvable_maps.specs.Iterations.{width};
ghost use Rattle.monos.specs.Variables.{most_variables};
ghost use Rattle.expo.specs.Bases.{IsCoprimeBase};
ghost use Rattle.closed_forms.specs.Lengths.{IsShort};
ghost use Rattle.closed_forms.specs.MapInWork.{images_in, IsInWork, AreFormsBut};
ghost use Rattle.closed_forms.specs.Put.{IsPutTo};
ghost use Rattle.closed_forms.specs.Refusal.{IfWide, IfRefusedBy, IfLater};
ghost use Rattle.closed_forms.specs.Splits.{groups_in};
ghost use Rattle.closed_forms.specs.SquareMap.{polys_by, size_by};
ghost use Rattle.closed_forms.specs.States.{after};
ghost use Rattle.closed_forms.specs.Values.{AreOver};
ghost use Rattle.closed_forms.specs.View.{IsFormOf};

use crate::base::base_of;
use crate::begins::Comparison;
use crate::class::SplitClass;
use crate::lengths::long_class;
use crate::square_map::SquareMap;
use crate::{Form, FormsError};
use eigen_split::Split;
use expo::Expo;
use frac128::{Frac, Whole};
use monos::Grevlex;
use poly::Poly;
use ring_laws::ArithmeticError;
use solvable::{SolvableError, classes};
use std::alloc::{AllocError, Global};

/// A map of which the closed form is made: its polynomials, one for each variable, and what was made of them so far.
#[derive(Drop)]
pub(crate) struct MapInWork<'a> {
    pub(crate) map: SquareMap<'a>,
    /// The classes, in their order.
    pub(crate) classes: Vec<Vec<usize>>,
    /// For each variable, the splitting of the class that begins with it, where one does.
    pub(crate) splits: Vec<Option<Split>>,
    /// The base of the values but zero.
    pub(crate) base: Vec<Whole>,
    /// How many values are zero.
    pub(crate) iterations: u32,
    /// The branch after up to as many iterations.
    pub(crate) states: Vec<Vec<Poly<Frac, Grevlex>>>,
}

impl<'a> MapInWork<'a> {
    /// What is made of a map before the closed forms of its classes. `NotSolvable` comes first; then the refusal of the first class that is refused; then `LimitForm` of the first one that is too long;
    /// then `WideForm` with the first variable, only where the branch is past after some of as many iterations as values are zero.
    pub(crate) fn new(alloc: Global, map: SquareMap<'a>) -> Result<MapInWork<'a>, FormsError>
        ensures images { IfOk result (λ work. work.map.images.now ≡ map.entry.images.now) }
        ensures work { IfOk result IsInWork }
        ensures lengths { IsOk result → IsShort (polys_by map.entry) }
        ensures refused { IfErr result (IfRefusedBy (polys_by map.entry)) }
    {
        let classes = match classes(alloc, map.images) {
            Ok(found) => found.groups,
            Err(SolvableError::NotSolvable { cycle }) => {
                return Err(FormsError::NotSolvable { cycle });
            }
            Err(SolvableError::Memory) => return Err(FormsError::Memory),
        };
        let splits = map.splits_of(alloc, &classes)?;
        if let Some(variable) = long_class(alloc, map.images, &classes)? {
            return Err(FormsError::LimitForm { variable });
        }
        let (base, iterations) = base_of(alloc, &splits)?;
        let states = match map.states(alloc, iterations) {
            Ok(states) => states,
            Err(ArithmeticError::Wide) => return Err(FormsError::WideForm { variable: 0 }),
            Err(ArithmeticError::Memory) => return Err(FormsError::Memory),
        };
        Ok(MapInWork {
            map,
            classes,
            splits,
            base,
            iterations,
            states,
        })
    }

    /// The closed form: the polynomials of the variables, class by class, from which number of iterations on they are the state, and which variables pass.
    pub(crate) fn form(self, alloc: Global) -> Result<Form, FormsError>
        requires work { IsInWork self }
        ensures form { IfOk result (IsFormOf (images_in self.entry)) }
        ensures refused { IfErr result (IfLater (images_in self.entry)) }
    {
        let mut polys = zeros(alloc, &self.base, self.map.images.len())?;
        self.fill(alloc, &self.classes, &mut polys)?;
        let comparison = Comparison {
            groups: &self.classes,
            polys: &polys,
            states: &self.states,
        };
        let since = comparison.least(alloc, self.iterations)?;
        let passing = comparison.passing(alloc, since)?;
        Ok(Form {
            base: self.base,
            polys,
            since,
            passing,
        })
    }

    /// Puts the polynomials of these classes, one class after another, in their places.
    fn fill(
        &self,
        alloc: Global,
        classes: &[Vec<usize>],
        polys: &mut Vec<Expo>,
    ) -> Result<(), FormsError>
        requires work { IsInWork self.now }
        requires forms { AreFormsBut self.now (groups_in classes.now) polys.old.items }
        ensures forms { OnOk result (AreFormsBut self.now [] polys.new.items) }
        ensures refused { IfErr result
            (IfWide (sizes self.now.base.items) (images_in self.now) self.now.iterations) }
    {
        let Some((class, classes)) = classes.split_first() else {
            return Ok(());
        };
        let class = class.as_slice();
        let first = class[0];
        let Some(split) = &self.splits[first] else {
            unreachable!()
        };
        let known = SplitClass {
            work: self,
            group: class,
            split,
        };
        match known.closed_class(alloc, polys) {
            Ok(news) => {
                put(polys, class, news);
                self.fill(alloc, classes, polys)
            }
            Err(ArithmeticError::Wide) => Err(FormsError::WideForm { variable: first }),
            Err(ArithmeticError::Memory) => Err(FormsError::Memory),
        }
    }

    /// The branch after as many iterations as values are zero.
    pub(crate) fn last_state(&self) -> &[Poly<Frac, Grevlex>]
        requires work { IsInWork self.now }
        ensures terms { terms_each result.now ≡ after (images_in self.now) self.now.iterations }
        ensures arities { All (λ p. p.arity ≡ size_by self.now.map) result.now }
    {
        self.states[self.iterations as usize].as_slice()
    }
}

/// The polynomial 0 for each of some variables.
fn zeros(alloc: Global, base: &Vec<Whole>, count: usize) -> Result<Vec<Expo>, AllocError>
    requires base { IsCoprimeBase (sizes base.now.items) }
    requires few { width (length (sizes base.now.items)) count ≤ most_variables }
    ensures count { IfOk result (λ polys. length polys.items ≡ count) }
    ensures over { IfOk result (λ polys. AreOver (sizes base.now.items) count polys.items) }
{
    let mut polys = Vec::new(alloc);
    for _ in 0..count {
        polys.push(Expo::zero(alloc, base, count)?)?;
    }
    Ok(polys)
}

/// Puts the polynomials of a class in their places, the last one first.
fn put(polys: &mut Vec<Expo>, group: &[usize], mut news: Vec<Expo>)
    requires count { length news.items ≤ length group.now }
    requires inside { All (λ i. i < length polys.old.items) group.now }
    requires ascending { Ascends group.now }
    ensures { IsPutTo (length news.items) group.now news.items polys.old.items polys.new.items }
{
    let Some(new) = news.pop() else {
        return;
    };
    let place = group[news.len()];
    polys[place] = new;
    put(polys, group, news);
}
