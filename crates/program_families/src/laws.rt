//! The laws of tasks in a search, one function.
ghost use Rattle.std.specs.Prelude.{◌≡◌, ◌<◌, ℕ, List};
ghost use Rattle.algebra.specs.Fraction.{Fraction};
ghost use Rattle.polynomials.specs.Terms.{Terms};
ghost use Rattle.machines.specs.Journal as journal;
ghost use Rattle.flows.specs.Graph.{Graph};
ghost use Rattle.flows.specs.Kept.{listed, IsExact};
ghost use Rattle.flows.specs.Searching.{Part, list_at, state_of, KeepsTarget, TakesRests};
ghost use Rattle.flows.specs.Tasks.{Job, Rests, kept, rested};
ghost use Rattle.program_families.specs.Following.{ComesNext};
ghost use Rattle.program_families.specs.Searches.{IsNextIn};

use flows::laws::searches_go_on_by_ended_tasks;

/// Where the entries of the task that comes next in a search lead to its end with all rests 0, its transition is done by it. Where they lead to its end with rests, and the source's list is exact, they are taken by its basis.
pub fn searches_go_on_by_tasks()
    ensures keeps { (G : Graph) (d q : ℕ) (parts : List Part) (j : Job) → IsNextIn G d q parts j
        → (start es : List journal.Entry) → ComesNext G.variables j start es kept
        → (let s = state_of G parts in let v = j.transition.to in
        (s.nodes v).listing ≡ listed (list_at s v))
        → KeepsTarget G d q (state_of G parts) j.place j.transition }
    ensures takes { (G : Graph) (d q : ℕ) (parts : List Part) (j : Job) → IsNextIn G d q parts j
        → (start es : List journal.Entry) (basis : List (Terms Fraction)) (rs : Rests)
        → ComesNext G.variables j start es (rested basis rs) → 0 < j.transition.to
        → (let s = state_of G parts in let v = j.transition.from in
        IsExact G d (s.nodes v) (list_at s v))
        → ¬ (KeepsTarget G d q (state_of G parts) j.place j.transition)
        → TakesRests G d q (state_of G parts) j.place
        (record { transition = j.transition; basis = basis }) }
{
    searches_go_on_by_ended_tasks();
}
