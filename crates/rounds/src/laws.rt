//! The laws of the analysis of a loop, up to its theorem, each as the contract of a function that does nothing.

ghost use Rattle.std.specs.Prelude.{◌≡◌, ◌↔◌, ℕ, suc, pred, ◌+◌, ◌<◌, ◌≤◌, true, false, List, [], ◌++◌, map, get_or, length, Option, None, Some};
ghost use Rattle.algebra.specs.Fraction.{Fraction, ℚ, rationals};
ghost use Rattle.polynomials.specs.Terms.{Terms, Same};
ghost use Rattle.polynomials.specs.Order.{grevlex};
ghost use Rattle.polynomials.specs.Polynomial.{Arity, AllArity, IsPolynomial};
ghost use Rattle.exponentials.specs.Base.{Coprime};
ghost use Rattle.ideals.specs.Members.{IsMember};
ghost use Rattle.machines.specs.Collect.{collect};
ghost use Rattle.machines.specs.Run.{IsRun, HasEnded};
ghost use Rattle.machines.specs.Journal.{Entry, Begin, Member, counts, units_of};
ghost use Rattle.machines.specs.Division as division;
ghost use Rattle.machines.specs.Reduced.{IsReducedFor};
ghost use Rattle.loops.specs.Program.{Expr, Program};
ghost use Rattle.loops.specs.Inv.{Inv};
ghost use Rattle.loops.specs.Map.{start_map, composition};
ghost use Rattle.loops.specs.Certificate.{Certificate, IsValid};
ghost use Rattle.loops.specs.WellFormed.{IsWellFormed};
ghost use Rattle.rounds.specs.Word.{AtMost, Every, Iterations, FirstIterations, IsLetter, Stays, IsZeroAtStarts};
ghost use Rattle.rounds.specs.Level.{InvAt, InvThen, InvUpTo};
ghost use Rattle.rounds.specs.Generate.{Generates, IsMeet};
ghost use Rattle.rounds.specs.Graph.{IsBefore, AreWide, graph_list};
ghost use Rattle.rounds.specs.Round.{IsOrbitAt, IsOrbit, IsAfter, IsSoFar, IsClosed, IsRound};
ghost use Rattle.rounds.specs.Orbit.{IsPoints, IsFormAt, IsIndependent, IsEliminated, at_point};
ghost use Rattle.rounds.specs.Start.{start_list};
ghost use Rattle.rounds.specs.Form.{Form, front, point_of, relations, passes, orbit_order, orbit_front, orbit_list, iteration_front, iteration_list, IsClosedForm};
ghost use Rattle.rounds.specs.Analysis.{Setting, with_asked, State, fresh, asking, goes, finished, orbit, form_of, pulled_back, block, starting, begin_orbit, begin_meet, begin_branch, after_branch, after, next, moves};
ghost use Rattle.rounds.specs.Journal.{since_of, Follows, FollowsFrom, IsFinished, IsFinishedBy, IsFinishedFrom, IsAnswered, IsOutFrom};
ghost use Rattle.rounds.specs.Kept.{IsKept};
ghost use Rattle.rounds.specs.Lists.{AreInvariants, AreKept};
ghost use Rattle.rounds.specs.Results.{IsReducedList, orbit_iterations};

/// The start list generates what is zero at each start, and that is what is zero once composed with the start map.
pub fn the_start_list_generates_what_is_zero_at_starts<At>()
    ensures generates { (program : Program (Expr At)) → IsWellFormed program
        → Generates (length program.names) (start_list program) (IsZeroAtStarts program) }
    ensures identity { (program : Program (Expr At)) → IsWellFormed program → (p : Terms Fraction)
        → Arity (length program.names) p → IsZeroAtStarts program p
        → Same ℚ (composition program p (start_map program)) [] }
{}

/// The list of round k generates the invariants of level k, an orbit those of that level and then iterations of its branch, the list so far those of iterations of a branch up to the last.
pub fn rounds_generate_levels<At>()
    ensures round { (program : Program (Expr At)) → IsWellFormed program
        → (k : ℕ) (gs : List (Terms Fraction)) → IsRound program (IsZeroAtStarts program) k gs
        → Generates (length program.names) gs (InvAt program k) }
    ensures orbit { (program : Program (Expr At)) (k i : ℕ) (gs hs : List (Terms Fraction))
        → IsLetter program i → Generates (length program.names) gs (InvAt program k)
        → IsOrbit program gs i hs → Generates (length program.names) hs (InvThen program k i) }
    ensures so_far { (program : Program (Expr At)) (k j : ℕ) (gs hs : List (Terms Fraction))
        → j ≤ length program.branches → Generates (length program.names) gs (InvAt program k)
        → IsSoFar program gs j hs → Generates (length program.names) hs (InvUpTo program k j) }
{}

/// A closed round's list generates the invariants, no level before has the invariants alone, and where it is reduced for its own ideal it is the reduced basis of the invariants.
pub fn closed_rounds_generate_the_invariants<At>()
    ensures all { (program : Program (Expr At)) → IsWellFormed program
        → (k : ℕ) (gs : List (Terms Fraction)) → IsRound program (IsZeroAtStarts program) k gs
        → IsClosed program gs → Generates (length program.names) gs (Inv program) }
    ensures first { (program : Program (Expr At)) → IsWellFormed program
        → (k : ℕ) (gs : List (Terms Fraction)) → IsRound program (IsZeroAtStarts program) k gs
        → (j : ℕ) → j < k → ((p : Terms Fraction) → InvAt program j p → Inv program p) → ⊥ }
    ensures reduced { (program : Program (Expr At)) → IsWellFormed program
        → (k : ℕ) (gs : List (Terms Fraction)) → IsRound program (IsZeroAtStarts program) k gs
        → IsClosed program gs
        → IsReducedFor rationals grevlex (length program.names) gs
        (IsMember ℚ (length program.names) gs)
        → IsReducedFor rationals grevlex (length program.names) gs (Inv program) }
{}

/// The same from the members of an ideal in place of what is zero at starts: a closed round generates what stays in it with every word.
pub fn closed_rounds_generate_what_stays_in_an_ideal<At>()
    ensures level { (program : Program (Expr At)) (firsts : List (Terms Fraction))
        → 0 < length program.branches → (k : ℕ) (gs : List (Terms Fraction))
        → IsRound program (IsMember ℚ (length program.names) firsts) k gs
        → Generates (length program.names) gs
        (Stays program (IsMember ℚ (length program.names) firsts) (AtMost k)) }
    ensures all { (program : Program (Expr At)) (firsts : List (Terms Fraction))
        → 0 < length program.branches → (k : ℕ) (gs : List (Terms Fraction))
        → IsRound program (IsMember ℚ (length program.names) firsts) k gs → IsClosed program gs
        → Generates (length program.names) gs
        (Stays program (IsMember ℚ (length program.names) firsts) Every) }
{}

/// What is a member of an ideal at each point of a base is one of that ideal padded and the relations.
pub fn points_of_a_base_are_independent()
    ensures { (bs : List ℕ) → Coprime bs → (m : ℕ)
        → IsIndependent (front (length bs)) m (point_of bs) (relations (length bs) m) }
{}

/// An orbit's list comes by elimination from the branch's closed form: of any number of iterations, where the form is the state from 0 on, else from where it begins to be the state; and so does that of one iteration. What is eliminated lies in the ideal before, where the starting list does at one point.
pub fn orbits_come_by_elimination<At>()
    ensures orbit { (program : Program (Expr At)) (b : ℕ) (f : Form) → IsClosedForm program b f
        → (gs ks : List (Terms Fraction)) → AllArity (length program.names) gs
        → IsEliminated (orbit_front f (length program.names)) (length program.names)
        (orbit_list f (length program.names) gs) ks
        → IsOrbitAt program gs b (orbit_iterations f.since) ks }
    ensures iteration { (program : Program (Expr At)) (b : ℕ) (f : Form) → IsClosedForm program b f
        → (gs ks images : List (Terms Fraction)) → AllArity (length program.names) gs
        → IsFormAt program b 0 (λ n. []) (λ n. 1) images
        → IsEliminated (iteration_front f (length program.names)) (length program.names)
        (iteration_list f (length program.names) images gs) ks
        → IsOrbitAt program gs b (λ n. 1) ks }
    ensures within { (k m : ℕ) (point : ℕ → List Fraction) → IsPoints k point
        → (gs hs ks : List (Terms Fraction)) → AllArity m gs → AllArity (k + m) hs
        → IsEliminated k m hs ks → (n : ℕ)
        → ((j : ℕ) → j < length hs → IsMember ℚ m gs (at_point k m point n (get_or hs j [])))
        → (p : Terms Fraction) → Arity m p → IsMember ℚ m ks p → IsMember ℚ m gs p }
{}

/// A polynomial is eliminated from the graph of what was and what is exactly where it is a member of the ideal after each number of iterations that the graph tells of.
pub fn graphs_give_orbits<At>()
    ensures { (program : Program (Expr At)) (i k t : ℕ) (point : ℕ → List Fraction)
        → IsPoints k point → (times : ℕ → ℕ) (copied before fs rs us : List (Terms Fraction))
        → IsFormAt program i k point times fs → IsBefore program i k t point times copied before
        → AreWide k t (length program.names) point before rs us
        → (gs : List (Terms Fraction)) → AllArity (length program.names) gs
        → IsIndependent k (length program.names) point rs → (ks : List (Terms Fraction))
        → IsEliminated (k + t) (length program.names)
        (graph_list k t (length program.names) before fs us gs) ks
        → IsOrbitAt program gs i times ks }
{}

/// What is a member of an ideal at each point of a base from some n on is one at each point, so the later points are independent too.
pub fn later_points_of_a_base_are_independent()
    ensures members { (bs : List ℕ) → Coprime bs
        → (m : ℕ) (gs : List (Terms Fraction)) → AllArity m gs
        → (since : ℕ) (e : Terms Fraction) → Arity (front (length bs) + m) e
        → ((n : ℕ) → IsMember ℚ m gs (at_point (front (length bs)) m (point_of bs) (since + n) e))
        → (n : ℕ) → IsMember ℚ m gs (at_point (front (length bs)) m (point_of bs) n e) }
    ensures independent { (bs : List ℕ) → Coprime bs → (m since : ℕ)
        → IsIndependent (front (length bs)) m (λ n. point_of bs (since + n))
        (relations (length bs) m) }
{}

/// A round's lists come one after another: before the first branch the list so far is the round's own; one iteration more of a branch leads from what is a member after n turns to what is one after n + 1; the list so far meets what is a member after each number of iterations that is taken, and the orbit from there on; of the first branch it is the orbit, where that is whole.
pub fn orbits_come_in_parts<At>()
    ensures own { (program : Program (Expr At)) (gs : List (Terms Fraction))
        → AllArity (length program.names) gs → IsAfter program gs (FirstIterations 0 0) gs }
    ensures iteration { (program : Program (Expr At)) (gs ks ls : List (Terms Fraction)) (i n : ℕ)
        → IsAfter program gs (Iterations i n) ks → IsOrbitAt program ks i (λ j. 1) ls
        → IsAfter program gs (Iterations i (suc n)) ls }
    ensures met_iteration { (program : Program (Expr At)) (gs hs ks ls : List (Terms Fraction))
        (b n : ℕ) → IsAfter program gs (FirstIterations b n) hs
        → IsAfter program gs (Iterations (suc b) (suc n)) ks
        → IsMeet (length program.names) hs ks ls → IsAfter program gs (FirstIterations b
        (suc n)) ls }
    ensures met_orbit { (program : Program (Expr At)) (gs hs ks ls : List (Terms Fraction))
        (b d : ℕ) → IsAfter program gs (FirstIterations b (pred d)) hs
        → IsOrbitAt program gs (suc b) (orbit_iterations d) ks
        → IsMeet (length program.names) hs ks ls → IsSoFar program gs (suc b) ls }
    ensures whole { (program : Program (Expr At)) (gs hs : List (Terms Fraction))
        → IsOrbit program gs 1 hs → IsSoFar program gs 1 hs }
    ensures next { (program : Program (Expr At)) (gs hs : List (Terms Fraction)) (b : ℕ)
        → IsSoFar program gs (suc b) hs → IsAfter program gs (FirstIterations (suc b) 0) hs }
{}

/// A closed form is the state from 0 on exactly where no variable passes.
pub fn no_variable_passes_where_a_form_begins_at_once<At>()
    ensures { (program : Program (Expr At)) (b : ℕ) (f : Form) → IsClosedForm program b f
        → (f.since ≡ 0) ↔ ((i : ℕ) → i < length program.names
        → passes f (length program.names) i ≡ false) }
{}

/// Where a branch's form is the state from 0 on, its tasks are its orbit and, but for the first branch, a meet: the orbit begins with the elements pulled back and the relations, no iteration is taken by itself, and of the first branch the orbit is the list so far.
pub fn forms_from_the_start_on_have_whole_orbits()
    ensures front { (A : Setting) (k b : ℕ) (gs so_far : List (Terms Fraction))
        → (form_of A b).since ≡ 0
        → block A (orbit k b gs so_far) ≡ front (length (form_of A b).base) }
    ensures list { (A : Setting) (k b : ℕ) (gs so_far : List (Terms Fraction))
        → (form_of A b).since ≡ 0
        → starting A (orbit k b gs so_far) ≡ map (pulled_back A b) gs
        ++ map (collect rationals (orbit_order (length (form_of A b).base)))
        (relations (length (form_of A b).base) A.arity) }
    ensures begins { (A : Setting) (k b : ℕ) (gs so_far : List (Terms Fraction))
        → (form_of A b).since ≡ 0
        → begin_branch A k b gs so_far ≡ begin_orbit A k b gs so_far }
    ensures first { (A : Setting) (k : ℕ) (gs so_far hs : List (Terms Fraction))
        → (form_of A 0).since ≡ 0
        → after A (orbit k 0 gs so_far) hs ≡ after_branch A k 0 gs hs }
    ensures further { (A : Setting) (k b : ℕ) (gs so_far hs : List (Terms Fraction))
        → (form_of A (suc b)).since ≡ 0
        → after A (orbit k (suc b) gs so_far) hs ≡ begin_meet A k (suc b) gs so_far hs }
{}

/// A closed list whose elements are zero at each start has a valid certificate.
pub fn closed_lists_have_certificates<At>()
    ensures { (program : Program (Expr At)) (gs : List (Terms Fraction))
        → AllArity (length program.names) gs
        → ((i : ℕ) → i < length gs → IsZeroAtStarts program (get_or gs i [])) → IsWellFormed program
        → IsClosed program gs → ((c : Certificate) × (c.basis ≡ gs) × IsValid program c) }
{}

/// The lists that a journal has given so far, finished or not, are the reduced bases of what their tasks are for: Start's of the invariants of level 0, an orbit's of those of its level and then iterations
/// of its branch, an iteration's of those of so many iterations, the list so far of those of the iterations up to there, a round's of the next level; and what the closing tests have passed are invariants.
pub fn lists_of_journals_are_reduced_bases<At>()
    ensures from_the_starts { (program : Program (Expr At)) → IsWellFormed program
        → (asked : Option (Terms Fraction)) (es : List Entry) (s : State)
        → (f : Follows program asked es s) → AreInvariants program (since_of f.forms) s }
    ensures from_a_list { (program : Program (Expr At)) → 0 < length program.branches
        → (firsts : List (Terms Fraction)) → IsReducedList (length program.names) firsts
        → (asked : Option (Terms Fraction)) (es : List Entry) (s : State)
        → (f : FollowsFrom program (Some firsts) asked es s)
        → AreKept program firsts (since_of f.forms) s }
{}

/// A finished journal ends with the list of a closed round that is the reduced basis of the invariants; its round is the first that has them all. So does an answered one, whose division of the polynomial ends with nothing exactly where that is an invariant.
pub fn finished_journals_end_with_the_basis<At>()
    ensures round { (program : Program (Expr At)) → IsWellFormed program
        → (es : List Entry) (k : ℕ) (gs : List (Terms Fraction)) → IsFinished program es k gs
        → IsRound program (IsZeroAtStarts program) k gs × IsClosed program gs
        × IsReducedFor rationals grevlex (length program.names) gs (Inv program) }
    ensures answered { (program : Program (Expr At)) → IsWellFormed program
        → (p : Terms Fraction) (es : List Entry) (k : ℕ) (gs : List (Terms Fraction))
        (d : division.State Fraction)
        → IsAnswered program p es k gs d
        → IsRound program (IsZeroAtStarts program) k gs × IsClosed program gs
        × IsReducedFor rationals grevlex (length program.names) gs (Inv program) }
    ensures decides { (program : Program (Expr At)) → IsWellFormed program → (p : Terms Fraction)
        → IsPolynomial ℚ grevlex (length program.names) p
        → (es : List Entry) (k : ℕ) (gs : List (Terms Fraction)) (d : division.State Fraction)
        → IsAnswered program p es k gs d → (d.current ≡ None) ↔ Inv program p }
{}

/// A finished journal from a reduced basis ends with the list of a closed round, the reduced basis of what the loop keeps of its ideal; no level before its round has all of it.
pub fn finished_journals_from_a_list_end_with_what_is_kept<At>()
    ensures round { (program : Program (Expr At)) → 0 < length program.branches
        → (firsts : List (Terms Fraction)) → IsReducedList (length program.names) firsts
        → (es : List Entry) (k : ℕ) (gs : List (Terms Fraction))
        → IsFinishedFrom program firsts es k gs
        → IsRound program (IsMember ℚ (length program.names) firsts) k gs × IsClosed program gs
        × IsReducedFor rationals grevlex (length program.names) gs (IsKept program firsts) }
    ensures generates { (program : Program (Expr At)) → 0 < length program.branches
        → (firsts : List (Terms Fraction)) → IsReducedList (length program.names) firsts
        → (es : List Entry) (k : ℕ) (gs : List (Terms Fraction))
        → IsFinishedFrom program firsts es k gs
        → Generates (length program.names) gs (IsKept program firsts) }
    ensures least { (program : Program (Expr At)) → 0 < length program.branches
        → (firsts : List (Terms Fraction)) → IsReducedList (length program.names) firsts
        → (es : List Entry) (k : ℕ) (gs : List (Terms Fraction))
        → IsFinishedFrom program firsts es k gs
        → (j : ℕ) → j < k
        → ((p : Terms Fraction) → Arity (length program.names) p
        → Stays program (IsMember ℚ (length program.names) firsts) (AtMost j) p
        → IsKept program firsts p) → ⊥ }
{}

/// Finished journals of two programs with as many variables have one basis exactly where the programs have the same invariants.
pub fn one_basis_for_the_same_invariants<At>()
    ensures { (program other : Program (Expr At)) → IsWellFormed program → IsWellFormed other
        → length program.names ≡ length other.names
        → (es fs : List Entry) (k j : ℕ) (gs hs : List (Terms Fraction))
        → IsFinished program es k gs → IsFinished other fs j hs
        → (gs ≡ hs) ↔ ((p : Terms Fraction) → Inv program p ↔ Inv other p) }
{}

/// Journals of one setting are beginnings of one list: where a unit comes next, a finished one has more units.
pub fn journals_are_beginnings_of_one()
    ensures { (A : Setting) (es fs : List Entry) (t u v : State) (e : Entry)
        → IsRun (moves A) fresh es t → HasEnded (moves A) t → IsRun (moves A) fresh fs u
        → moves A u ≡ Some (e, v) → counts e ≡ true → units_of fs < units_of es }
{}

/// What is asked matters at the end alone: a finished journal goes on with the division of what is asked by its list.
pub fn what_is_asked_matters_at_the_end()
    ensures run { (A : Setting) (p : Terms Fraction) (es : List Entry) (s t : State)
        → IsRun (moves (with_asked None A)) s es t → IsRun (moves (with_asked (Some p) A)) s es t }
    ensures next { (A : Setting) (p : Terms Fraction) (s : State) (k : ℕ)
        (gs : List (Terms Fraction))
        → next (with_asked None A) s ≡ finished k gs
        → next (with_asked (Some p) A) s
        ≡ goes (Begin Member) (asking k gs (division.initial_state gs p)) }
{}

/// A branch has one closed form, so the journals of a loop from one beginning are beginnings of one list, and none runs out of a budget that a finished one keeps within.
pub fn a_branch_has_one_closed_form<At>()
    ensures form { (program : Program (Expr At)) (b : ℕ) (f g : Form) → IsClosedForm program b f
        → IsClosedForm program b g → f ≡ g }
    ensures enough { (program : Program (Expr At)) (given : Option (List (Terms Fraction)))
        (es fs : List Entry) (k n : ℕ) (gs : List (Terms Fraction))
        → IsFinishedBy program given es k gs → units_of es ≤ n
        → IsOutFrom program given None n fs → ⊥ }
{}
