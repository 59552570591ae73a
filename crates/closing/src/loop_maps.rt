//! A loop with its maps, under which polynomials are closed.
ghost use Rattle.loop_model.specs.View.{program_of};
ghost use Rattle.counter_run.specs.Maps.{AreMaps};

use counter_run::Maps;
use frac128::Frac;
use loop_model::Loop;
use monos::Grevlex;
use poly::Poly;

/// A loop with its maps, under which polynomials are closed.
#[derive(Drop)]
pub struct LoopMaps<'a> {
    pub lp: &'a Loop,
    pub maps: &'a Maps,
    pub ghost are_maps: { ∥ AreMaps (program_of lp.now) maps.now ∥₁ },
}

impl LoopMaps<'_> {
    ghost use Rattle.rounds.specs.Word.{IsLetter};
    ghost use Rattle.closing.specs.LoopMaps.{program_in, IsBranchAt};

    /// The map of the branch with this number.
    pub(crate) fn branch(&self, letter: u32) -> &Vec<Poly<Frac, Grevlex>>
        requires { IsLetter (program_in self.now) letter }
        ensures { IsBranchAt (program_in self.now) letter result.now }
    {
        &self.maps.branches[letter as usize - 1]
    }
}
