//! The splittings of all classes.
ghost use Rattle.std.specs.Prelude.{◌≡◌, List, IfOk, IfErr};
ghost use Rattle.algebra.specs.Fraction.{Fraction};
ghost use Rattle.polynomials.specs.Terms.{Terms};
ghost use Rattle.algebra.specs.Each.{Each};
ghost use Rattle.algebra.specs.In.{In};
ghost use Rattle.solvable.specs.Refusal.{AreClassesOf, IsSolvable};
ghost use Rattle.solvable_maps.specs.Classes.{IsClass, IsReachedClass, first_of};
ghost use Rattle.closed_forms.specs.Splits.{groups_in, AreSplits, IsSplitAmong, IsSplitOf, IfRefusedAt, IfRefusedMatrix};
ghost use Rattle.closed_forms.specs.SquareMap.{polys_by};

use crate::FormsError;
use crate::square_map::SquareMap;
use eigen_split::{EigenError, Split, split};
use std::alloc::Global;

impl SquareMap<'_> {
    /// For each variable, the splitting of the class that begins with it, where one does.
    pub(crate) fn splits_of(
        &self,
        alloc: Global,
        groups: &[Vec<usize>],
    ) -> Result<Vec<Option<Split>>, FormsError>
        requires solvable { IsSolvable (polys_by self.now) }
        requires classes { AreClassesOf (polys_by self.now) groups.now }
        ensures splits { IfOk result (λ s. AreSplits (polys_by self.now) s.items) }
        ensures refused { IfErr result
            (IfRefusedAt (polys_by self.now) (IsReachedClass (polys_by self.now))) }
    {
        let mut splits = Vec::new(alloc);
        for first in 0..self.images.len() {
            splits.push(self.split_from(alloc, groups, first)?)?;
        }
        Ok(splits)
    }

    /// The splitting of the class that begins with this variable, where one does.
    fn split_from(
        &self,
        alloc: Global,
        groups: &[Vec<usize>],
        first: usize,
    ) -> Result<Option<Split>, FormsError>
        requires { Each (IsClass (polys_by self.now)) (groups_in groups.now) }
        ensures split { IfOk result
            (IsSplitAmong (polys_by self.now) (groups_in groups.now) first) }
        ensures refused { IfErr result (IfRefusedAt (polys_by self.now)
            (λ g. In g (groups_in groups.now) × (first_of g ≡ first))) }
    {
        let Some((group, groups)) = groups.split_first() else {
            return Ok(None);
        };
        if group[0] != first {
            return self.split_from(alloc, groups, first);
        }
        match self.split_of(alloc, group) {
            Ok(found) => Ok(Some(found)),
            Err(error) => Err(error),
        }
    }

    /// The splitting of a class.
    fn split_of(&self, alloc: Global, group: &Vec<usize>) -> Result<Split, FormsError>
        requires { IsClass (polys_by self.now) group.now.items }
        ensures split { IfOk result (IsSplitOf (polys_by self.now) group.now.items) }
        ensures refused { IfErr result
            (IfRefusedAt (polys_by self.now) (λ g. g ≡ group.now.items)) }
    {
        let matrix = self.class_matrix(alloc, group.as_slice())?;
        match split(alloc, &matrix) {
            Ok(found) => Ok(found),
            Err(error) => {
                let class = group.as_slice().to_vec(alloc)?;
                Err(class_refusal(class, error))
            }
        }
    }
}

/// A class that does not split, with the reason.
fn class_refusal(class: Vec<usize>, error: EigenError) -> FormsError
    ensures { (images : List (Terms Fraction)) → IfRefusedMatrix images class.items error
        → IfRefusedAt images (λ g. g ≡ class.items) result }
{
    match error {
        EigenError::Eigen => FormsError::Eigen { class },
        EigenError::Range { sum } => FormsError::Range { class, sum },
        EigenError::Wide {
            candidate,
            power,
            row,
        } => FormsError::WideSplit {
            class,
            candidate,
            power,
            row,
        },
        EigenError::Memory => FormsError::Memory,
    }
}
