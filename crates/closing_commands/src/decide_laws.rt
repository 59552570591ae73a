//! The laws of closings that nothing stops, as the contracts of functions that do nothing.
ghost use Rattle.std.specs.Prelude.{◌≡◌, ◌⊎◌, ◌≤◌, ℕ, [], Some, codes};
ghost use Rattle.loops.specs.Program.{Expr, Program};
ghost use Rattle.io_edge.specs.declared.answer.Status.TheVariants.{Yes, No};
ghost use Rattle.io_edge.specs.Outcome.{Call};
ghost use Rattle.io_edge.specs.Clauses.{IsExcused};
ghost use Rattle.closing_commands.specs.declared.evidence.Evidence.TheVariants.{Basis, Certificate};
ghost use Rattle.closing_commands.specs.DecideArguments.{Request};
ghost use Rattle.closing_commands.specs.DecideClauses.{HasLimit, HasWideWord, HasWideTest, HasEnd, DecidesAny};

/// The causes of `decide` and `prove` are none that every equation meets, and their premises are met: of every loop, whatever its branches,
/// the closing of the polynomial 0 ends within one unit, and so do the divisions behind it that prove its list closed; no composition of it
/// passes a limit; and no number of the closing or of these divisions may not fit.
pub fn zero_is_decided_of_every_loop()
    ensures limit { (l : Program (Expr ℕ)) → ¬ (HasLimit l []) }
    ensures wide { (l : Program (Expr ℕ)) → ¬ (HasWideWord l []) }
    ensures ends { (l : Program (Expr ℕ)) → HasEnd l [] Basis 1 }
    ensures fits { (l : Program (Expr ℕ)) → ¬ (HasWideTest l [] Certificate) }
    ensures proves { (l : Program (Expr ℕ)) → HasEnd l [] Certificate 1 }
{}

/// `decide` and `prove` have to say yes, and have to say no: of `vars x; init x=1; branch { x=-x; }`, whatever the name of its file is and with
/// any budget from four units on, each call that keeps their clauses answers yes to `x^2=1` and no to `x=1`, but for want of memory and faults of
/// the outside. So equations other than `0 = 0` meet the premises of `completes`, with either answer.
pub fn one_loop_has_a_yes_and_a_no()
    ensures yes { (request : Request) (call : Call) → DecidesAny request call
        → call.files.before.told request.file ≡ Some (codes "vars x; init x=1; branch { x=-x; }")
        → request.equation ≡ codes "x^2=1" → 4 ≤ request.budget
        → (call.status ≡ Yes) ⊎ IsExcused call.status }
    ensures no { (request : Request) (call : Call) → DecidesAny request call
        → call.files.before.told request.file ≡ Some (codes "vars x; init x=1; branch { x=-x; }")
        → request.equation ≡ codes "x=1" → 3 ≤ request.budget
        → (call.status ≡ No) ⊎ IsExcused call.status }
{}
