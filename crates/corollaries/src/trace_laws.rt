//! The laws of traces, each as the contract of a function that does nothing.

ghost use Rattle.std.specs.Prelude.{◌≡◌, ℕ, ◌+◌, ◌≤◌, List, All, length};
ghost use Rattle.algebra.specs.Fraction.{Fraction, ℚ, rationals};
ghost use Rattle.polynomials.specs.Terms.{Terms};
ghost use Rattle.polynomials.specs.Order.{grevlex};
ghost use Rattle.polynomials.specs.Polynomial.{IsPolynomial};
ghost use Rattle.ideals.specs.Members.{IsMember};
ghost use Rattle.machines.specs.Basis.{AtPlaces};
ghost use Rattle.machines.specs.Elimination.{free_part};
ghost use Rattle.machines.specs.Journal.{Entry, units_of};
ghost use Rattle.machines.specs.Reduced.{IsReducedFor};
ghost use Rattle.corollaries.specs.Stage.{Stage, block_order, StageHolds};
ghost use Rattle.corollaries.specs.Traced.{IsTraced};
ghost use Rattle.loops.specs.Program.{Expr, Program};
ghost use Rattle.loops.specs.Inv.{Inv};
ghost use Rattle.loops.specs.Certificate.{AreOver, IsValid};
ghost use Rattle.loops.specs.WellFormed.{IsWellFormed};
ghost use Rattle.exponentials.specs.Base.{Ascending, Coprime};
ghost use Rattle.solvable_maps.specs.Iterations.{IsNormal, IsClosedForm};
ghost use Rattle.algebra.specs.Each.{Each};
ghost use Rattle.rounds.specs.Form.{Form};
ghost use Rattle.rounds.specs.Journal as analysis;
ghost use Rattle.corollaries.specs.Full.{IsFullOver};
ghost use Rattle.corollaries.specs.Counts.{IsSquare, IsCounted};
ghost use Rattle.corollaries.specs.FormIdentities.{IsRightForm};
ghost use Rattle.corollaries.specs.Parts.{AllHold};
ghost use Rattle.corollaries.specs.Trace.{Results};
ghost use Rattle.corollaries.specs.Followed.{IsFinished, IsOut};
ghost use Rattle.corollaries.specs.Certified.{full_from};

/// The stage that a task of a trace tells holds, and it gives the reduced basis of what is kept of
/// its list.
pub fn traced_stages_hold()
    ensures holds { (k m : ℕ) (hs : List (Terms Fraction))
        → AtPlaces (IsPolynomial ℚ (block_order k) (k + m)) hs → (s : Stage) → IsTraced k hs s
        → StageHolds k hs s }
    ensures reduced { (k m : ℕ) (hs : List (Terms Fraction))
        → AtPlaces (IsPolynomial ℚ (block_order k) (k + m)) hs → (s : Stage) → IsTraced k hs s
        → IsReducedFor rationals grevlex m s.out (IsMember ℚ m (free_part k s.list)) }
{}

/// A loop has one trace of so many rounds that has ended, and none runs out of a budget that it
/// keeps within.
pub fn there_is_one_trace<At>()
    ensures same { (program : Program (Expr At)) (k : ℕ) (es fs : List Entry) (d e : Results)
        → IsFinished program k es d → IsFinished program k fs e → (es ≡ fs) × (d ≡ e) }
    ensures enough { (program : Program (Expr At)) (k n : ℕ) (es fs : List Entry) (d : Results)
        → IsFinished program k es d → units_of es ≤ n → IsOut program k n fs → ⊥ }
{}

/// What a finished trace gives, with the forms and a valid certificate of the list of an analysis
/// with as many rounds, is a valid full certificate. Its list is the reduced basis of the
/// invariants.
pub fn finished_traces_give_full_certificates<At>()
    ensures full { (program : Program (Expr At)) → IsWellFormed program
        → (es fs : List Entry) (k : ℕ) (gs : List (Terms Fraction))
        → analysis.IsFinished program es k gs → (d : Results) (t : IsFinished program k fs d)
        → (steps : List (List (List (Terms Fraction))))
        → IsValid program (record { basis = gs; steps = steps })
        → AllHold program (full_from gs steps t.follows.forms d) }
    ensures over { (program : Program (Expr At)) → IsWellFormed program
        → (fs : List Entry) (k : ℕ) (gs : List (Terms Fraction)) (d : Results)
        (t : IsFinished program k fs d) (steps : List (List (List (Terms Fraction))))
        → AreOver (length program.names) (record { basis = gs; steps = steps })
        → IsFullOver program (full_from gs steps t.follows.forms d) }
    ensures reduced { (program : Program (Expr At)) → IsWellFormed program
        → (es : List Entry) (k : ℕ) (gs : List (Terms Fraction))
        → analysis.IsFinished program es k gs
        → IsReducedFor rationals grevlex (length program.names) gs (Inv program) }
{}

/// What a finished trace gives has, with a square of cofactors for each branch, as many of all as a full
/// certificate must.
pub fn finished_traces_give_as_many<At>()
    ensures { (program : Program (Expr At)) → IsWellFormed program → (es : List Entry) (k : ℕ)
        (gs : List (Terms Fraction)) (d : Results) (t : IsFinished program k es d)
        → (steps : List (List (List (Terms Fraction))))
        → length steps ≡ length program.branches → All (IsSquare (length gs)) steps
        → IsCounted program (full_from gs steps t.follows.forms d) }
{}

/// A closed form that is normal, over a base that ascends and is coprime, is a right form: the
/// identities of forms hold.
pub fn closed_forms_are_right()
    ensures { (images : List (Terms Fraction)) (m : ℕ) → length images ≡ m → (f : Form)
        → Coprime f.base → Ascending f.base → IsClosedForm f.base images f.polys
        → Each (IsNormal f.base) f.polys → IsRightForm images m f }
{}
