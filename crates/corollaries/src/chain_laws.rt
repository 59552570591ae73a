//! The laws of loops in sequence, each as the contract of a function that does nothing.

ghost use Rattle.std.specs.Prelude.{◌≡◌, ◌↔◌, ℕ, suc, ◌+◌, ◌≤◌, Option, List, [], ◌++◌, get_or, length, sum_by};
ghost use Rattle.algebra.specs.Fraction.{Fraction, ℚ, rationals};
ghost use Rattle.polynomials.specs.Terms.{Terms, Same, constant, times};
ghost use Rattle.polynomials.specs.Polynomial.{Arity, AllArity};
ghost use Rattle.machines.specs.Journal.{Entry};
ghost use Rattle.machines.specs.Reduced.{IsReducedFor};
ghost use Rattle.polynomials.specs.Order.{grevlex};
ghost use Rattle.loops.specs.Inv.{Inv};
ghost use Rattle.loops.specs.Program.{Expr, Program, Statement};
ghost use Rattle.rounds.specs.Generate.{Generates};
ghost use Rattle.rounds.specs.Journal.{IsOutFrom};
ghost use Rattle.rounds.specs.Kept.{IsKept};
ghost use Rattle.rounds.specs.Orbit.{IsEliminated};
ghost use Rattle.corollaries.specs.Between.{Leads, IsMapped, IsExhaustedLeading};
ghost use Rattle.loops.specs.Chain.{Chain, Stage, stages_of, loop_of, loop_at, code_at, followed_by, up_to, count_codes, chain_states, ChainRun, ChainInv, IsChain};
ghost use Rattle.corollaries.specs.CodeBetween.{copies, code_list, LeadsOn};
ghost use Rattle.corollaries.specs.Analysed.{Analysed, GivenTo, IsBasisOfChain};

/// A chain of one loop has the loop's invariants.
pub fn chains_of_one_loop_are_loops<At>()
    ensures { (program : Program (Expr At)) (p : Terms Fraction)
        → ChainInv (record { first = program; further = [] }) p ↔ Inv program p }
{}

/// The states of a run are one more than its words have letters and its loops code before them, and the last is its end, which is a state.
pub fn chain_runs_go_through_states<At>()
    ensures end { (c : Chain (Expr At)) (r : ChainRun c) → length r.end ≡ length c.first.names }
    ensures count { (c : Chain (Expr At)) (r : ChainRun c)
        → length (chain_states c.first (stages_of c) r.words r.start)
        ≡ suc (count_codes (stages_of c) + sum_by length r.words) }
    ensures last { (c : Chain (Expr At)) (r : ChainRun c) (d : List Fraction)
        → get_or (chain_states c.first (stages_of c) r.words r.start)
        (count_codes (stages_of c) + sum_by length r.words) d ≡ r.end }
{}

/// What a loop keeps of what the code before it makes of the invariants of the chain before it is what is invariant in the chain with the loop.
pub fn what_a_loop_keeps_is_invariant<At>()
    ensures { (c : Chain (Expr At)) (g : Stage (Expr At)) (gs ks : List (Terms Fraction))
        (es : List Entry) → Generates (length c.first.names) gs (ChainInv c)
        → IsMapped c.first g.code gs es ks
        → (p : Terms Fraction) → Arity (length c.first.names) p
        → IsKept (loop_of c.first g.branches) ks p ↔ ChainInv (followed_by c g) p }
{}

/// Analysed loop by loop, a chain ends with the one reduced basis of its invariants, which generates just these.
pub fn chains_end_with_the_basis<At>()
    ensures basis { (c : Chain (Expr At)) → IsChain c → (budget j : ℕ) (gs : List (Terms Fraction))
        → Analysed c budget j gs → IsBasisOfChain (up_to j c) gs }
    ensures generates { (c : Chain (Expr At)) → IsChain c → (budget j : ℕ)
        (gs : List (Terms Fraction))
        → Analysed c budget j gs → Generates (length c.first.names) gs (ChainInv (up_to j c)) }
    ensures one { (c : Chain (Expr At)) → IsChain c → (budget j : ℕ) (gs hs : List (Terms Fraction))
        → Analysed c budget j gs → IsBasisOfChain (up_to j c) hs → gs ≡ hs }
{}

/// No budget is exhausted where each loop of the chain has a finished journal within it, with that of the code before it.
pub fn no_budget_is_exhausted_where_each_loop_keeps_within_it<At>()
    ensures loops { (c : Chain (Expr At)) → IsChain c → (budget n : ℕ) (gs : List (Terms Fraction))
        → Analysed c budget n gs
        → (j left : ℕ) (given : Option (List (Terms Fraction))) → j ≤ n
        → GivenTo c budget j left given
        → (es : List Entry) → IsOutFrom (loop_at c j) given None left es → ⊥ }
    ensures code { (c : Chain (Expr At)) → IsChain c → (budget n : ℕ) (gs : List (Terms Fraction))
        → Analysed c budget n gs
        → (j : ℕ) (hs : List (Terms Fraction)) → suc j ≤ n → Analysed c budget j hs
        → (es : List Entry) → IsExhaustedLeading c.first (code_at c (suc j)) hs budget es → ⊥ }
{}

/// The invariants of a chain are an ideal, and one is none of them.
pub fn chain_invariants_are_an_ideal<At>()
    ensures same { (c : Chain (Expr At)) (p q : Terms Fraction) → Arity (length c.first.names) q
        → Same ℚ p q → ChainInv c p → ChainInv c q }
    ensures zero { (c : Chain (Expr At)) → ChainInv c [] }
    ensures sum { (c : Chain (Expr At)) (p q : Terms Fraction) → ChainInv c p → ChainInv c q
        → ChainInv c (p ++ q) }
    ensures multiple { (c : Chain (Expr At)) (p q : Terms Fraction) → Arity (length c.first.names) p
        → ChainInv c q → ChainInv c (times ℚ p q) }
    ensures one { (c : Chain (Expr At)) → IsChain c
        → ChainInv c (constant (length c.first.names) ℚ.one) → ⊥ }
{}

/// Code between two loops leads on what is known: where the copies of what was are eliminated from its list, what is left generates the polynomials that, composed with the code, are in the ideal before.
pub fn code_leads_on_what_is_known<At>()
    ensures { (program : Program (Expr At)) (code : List (Statement (Expr At)))
        (gs ks : List (Terms Fraction)) → AllArity (length program.names) gs
        → IsEliminated (copies (length program.names) code) (length program.names)
        (code_list program code gs) ks
        → Generates (length program.names) ks (LeadsOn program code gs) }
{}

/// Where the elimination of the copies has ended, its list is the one reduced basis of the polynomials that, composed with the code, are in the ideal before, and generates these.
pub fn code_ends_with_the_basis<At>()
    ensures basis { (program : Program (Expr At)) (code : List (Statement (Expr At)))
        (gs : List (Terms Fraction)) → AllArity (length program.names) gs
        → (es : List Entry) (ks : List (Terms Fraction)) → Leads program code gs es ks
        → IsReducedFor rationals grevlex (length program.names) ks (LeadsOn program code gs) }
    ensures generates { (program : Program (Expr At)) (code : List (Statement (Expr At)))
        (gs : List (Terms Fraction)) → AllArity (length program.names) gs
        → (es : List Entry) (ks : List (Terms Fraction)) → Leads program code gs es ks
        → Generates (length program.names) ks (LeadsOn program code gs) }
    ensures one { (program : Program (Expr At)) (code : List (Statement (Expr At)))
        (gs : List (Terms Fraction)) (es fs : List Entry) (ks hs : List (Terms Fraction))
        → Leads program code gs es ks → Leads program code gs fs hs → (es ≡ fs) × (ks ≡ hs) }
{}
