//! Loops in sequence, as values.

ghost use Rattle.std.specs.Prelude.{◌≡◌, ◌≤◌, suc, length};
ghost use Rattle.loop_runs.specs.Limits.{most_loops};
ghost use Rattle.loop_runs.specs.Parts.{chain_seen, stages_in, AreStagesOf, AreFurther};

use crate::stage::Stage;
use loop_model::Loop;

/// One to eight loops over the same variables and local names, with code between them. Those behind the first set no variable before they begin.
#[derive(Drop)]
pub struct Chain {
    first: Loop,
    further: Vec<Stage>,
    pub ghost few_loops: { suc (length further.items) ≤ most_loops },
    pub ghost alike: { ∥ AreFurther first further.items ∥₁ },
}

impl Chain {
    ghost use Rattle.loop_model.specs.View.{program_of};
    ghost use Rattle.loop_runs.specs.ChainSeen.{chain_in};

    /// The chain of these loops and of the code between them.
    pub fn new(first: Loop, further: Vec<Stage>) -> Chain
        requires few { suc (length further.items) ≤ most_loops }
        requires alike { AreFurther first further.items }
        ensures { chain_in result ≡ chain_seen first further.items }
    {
        Chain { first, further }
    }

    /// The first loop.
    pub fn first(&self) -> &Loop
        ensures { program_of result.now ≡ (chain_in self.now).first }
    {
        &self.first
    }

    /// The stages behind the first loop, in order.
    pub fn further(&self) -> &[Stage]
        ensures stages { stages_in result.now ≡ (chain_in self.now).further }
        ensures alike { AreStagesOf (chain_in self.now).first result.now }
        ensures few { suc (length result.now) ≤ most_loops }
    {
        &self.further
    }
}
