//! One stage, judged.
ghost use Rattle.std.specs.Prelude.{◌<◌, ℕ, length, OnOk, IfOk, IfErr, IsErrOf, IsTrue, ◌↔◌};
ghost use Rattle.algebra.specs.Each.{Each};
ghost use Rattle.machines.specs.Elimination.{free_part};
ghost use Rattle.corollaries.specs.Representation.{pairs_of};
ghost use Rattle.corollaries.specs.Stage.{in_list, in_gens, in_pairs, in_links};
ghost use Rattle.cert_checker.specs.Parts.{place_of};
ghost use Rattle.cert_checker.specs.FullStops.{IsStop, StopsAt};
ghost use Rattle.cert_checker.specs.StageJudge.{starting_by, stage_seen, IsStageJudge, HoldsBy, IsPastBy, places_by};

use crate::full_part::{Row, RowPlace, in_row};
use crate::full_stop::{Stop, told};
use monos::Blocks;
use ring_laws::ArithmeticError;
use std::alloc::Global;
use task_lists::{
    FullStage, Starting, all_pairs, element_of, free_elements, is_combination,
    is_lcm_representation, is_monic,
};

/// The judge of a stage.
#[derive(Drop)]
pub(crate) struct StageJudge<'a> {
    /// What the stage begins with.
    pub(crate) begin: Starting<'a>,
    /// How many variables stand in front of the loop's.
    pub(crate) front: usize,
    /// How many variables the loop has.
    pub(crate) variables: usize,
    pub(crate) stage: &'a FullStage,
}

impl StageJudge<'_> {
    /// Whether the parts of the stage hold.
    pub(crate) fn judge(&self, alloc: Global) -> Result<(), Stop<RowPlace>>
        requires judge { IsStageJudge self.now }
        ensures holds { OnOk result (Each (HoldsBy self.now) (places_by self.now)) }
        ensures stops { IfErr result
            (IsStop place_of (HoldsBy self.now) (IsPastBy self.now) (places_by self.now)) }
    {
        in_row(Row::List, self.judge_list())?;
        in_row(Row::Gens, self.judge_gens(alloc))?;
        in_row(Row::Pairs, self.judge_pairs(alloc))?;
        in_row(Row::Links, self.judge_links(alloc))
    }

    /// Whether each element is monic.
    fn judge_list(&self) -> Result<(), Stop<usize>>
        ensures holds { OnOk result ((i : ℕ) → i < length (stage_seen self.now).list
            → HoldsBy self.now (in_list i)) }
        ensures stops { IfErr result (StopsAt (λ i. HoldsBy self.now (in_list i))
            (λ i. IsPastBy self.now (in_list i)) (length (stage_seen self.now).list)) }
    {
        for (i, p) in self.stage.list.iter().enumerate() {
            told(i, Ok(is_monic(p)))?;
        }
        Ok(())
    }

    /// Whether each polynomial that the stage begins with is made of the list.
    fn judge_gens(&self, alloc: Global) -> Result<(), Stop<usize>>
        requires judge { IsStageJudge self.now }
        ensures holds { OnOk result ((i : ℕ) → i < length (starting_by self.now)
            → HoldsBy self.now (in_gens i)) }
        ensures stops { IfErr result (StopsAt (λ i. HoldsBy self.now (in_gens i))
            (λ i. IsPastBy self.now (in_gens i)) (length (starting_by self.now))) }
    {
        for i in 0..self.stage.gens.len() {
            told(i, self.is_made(alloc, i))?;
        }
        Ok(())
    }

    /// Whether the polynomial at this place of what the stage begins with is made of the list by its cofactors.
    fn is_made(&self, alloc: Global, place: usize) -> Result<bool, ArithmeticError>
        requires judge { IsStageJudge self.now }
        requires place { place < length (starting_by self.now) }
        ensures holds { IfOk result
            (λ holds. IsTrue holds ↔ HoldsBy self.now (in_gens place)) }
        ensures wide { IsErrOf result ArithmeticError.Wide → IsPastBy self.now (in_gens place) }
    {
        let p = element_of(alloc, &self.begin, self.variables, place)?;
        is_combination(alloc, &p, &self.stage.gens[place], &self.stage.list)
    }

    /// Whether the S-polynomial of each pair is made of the list below the least common multiple of the leads.
    fn judge_pairs(&self, alloc: Global) -> Result<(), Stop<usize>>
        requires judge { IsStageJudge self.now }
        requires monic { (i : ℕ) → i < length (stage_seen self.now).list
            → HoldsBy self.now (in_list i) }
        ensures holds { OnOk result
            ((i : ℕ) → i < length (pairs_of (length (stage_seen self.now).list))
            → HoldsBy self.now (in_pairs i)) }
        ensures stops { IfErr result (StopsAt (λ i. HoldsBy self.now (in_pairs i))
            (λ i. IsPastBy self.now (in_pairs i))
            (length (pairs_of (length (stage_seen self.now).list)))) }
    {
        let list = &self.stage.list;
        let Ok(all) = all_pairs(alloc, list.len()) else {
            return Err(Stop::Memory);
        };
        let order = Blocks { first: self.front };
        let arity = self.front + self.variables;
        for (i, row) in self.stage.pairs.iter().enumerate() {
            let (left, right) = all[i];
            told(
                i,
                is_lcm_representation(alloc, order, arity, list, left, right, row),
            )?;
        }
        Ok(())
    }

    /// Whether each element without the variables in front is made of what the stage gives.
    fn judge_links(&self, alloc: Global) -> Result<(), Stop<usize>>
        requires judge { IsStageJudge self.now }
        ensures holds { OnOk result
            ((i : ℕ) → i < length (free_part self.now.front (stage_seen self.now).list)
            → HoldsBy self.now (in_links i)) }
        ensures stops { IfErr result (StopsAt (λ i. HoldsBy self.now (in_links i))
            (λ i. IsPastBy self.now (in_links i))
            (length (free_part self.now.front (stage_seen self.now).list))) }
    {
        let Ok(free) = free_elements(alloc, &self.stage.list, self.front, self.variables) else {
            return Err(Stop::Memory);
        };
        for (i, row) in self.stage.links.iter().enumerate() {
            told(i, is_combination(alloc, &free[i], row, &self.stage.out))?;
        }
        Ok(())
    }
}
