//! The laws of graphs and families, one function each.

ghost use Rattle.std.specs.Prelude.{◌≡◌, ◌↔◌, ℕ, ℤ, pos, ◌+◌, ◌<◌, ◌≤◌, List, [], ◌∷◌, map, length, sum, Some};
ghost use Rattle.algebra.specs.Each.{Each};
ghost use Rattle.algebra.specs.In.{In};
ghost use Rattle.algebra.specs.Fraction.{Fraction, ℚ, rationals};
ghost use Rattle.polynomials.specs.Terms.{Terms, Same, coefficient, constant, times, value_at};
ghost use Rattle.polynomials.specs.Order.{grevlex};
ghost use Rattle.polynomials.specs.Polynomial.{Arity, AllArity, IsPolynomial};
ghost use Rattle.ideals.specs.Members.{IsMember};
ghost use Rattle.machines.specs.Basis.{IsBasisOf};
ghost use Rattle.machines.specs.Division as division;
ghost use Rattle.machines.specs.Elimination as elimination;
ghost use Rattle.machines.specs.Reduced.{IsReducedFor};
ghost use Rattle.machines.specs.Run.{IsRun, HasEnded};
ghost use Rattle.rounds.specs.Results.{LeadsTo};
ghost use Rattle.loops.specs.Program.{Expr, Program};
ghost use Rattle.loops.specs.Run.{Run, value};
ghost use Rattle.loops.specs.Inv as loop;
ghost use Rattle.loops.specs.WellFormed.{IsWellFormed};
ghost use Rattle.closures.specs.Closing.{next_extended, extended_list};
ghost use Rattle.closures.specs.Closure.{IsIdeal};
ghost use Rattle.closures.specs.Monomials.{monomials_up_to};
ghost use Rattle.closures.specs.Modulo.{IsTriangularFrom, IsCombinationModulo};
ghost use Rattle.closures.specs.UpTo.{AreDistinct, AreTidy, HasStandard, HasNoCombination, IsReducedUpTo};
ghost use Rattle.flows.specs.Graph.{Transition, Graph, IsGraph, Leads, Reached, Inv};
ghost use Rattle.flows.specs.Family.{Family, after, generators, union, with_one, IsAtMost, IsInductive, HasDegree, IsProvable, IsGreatest};
ghost use Rattle.flows.specs.Certificate.{Certificate, Verdict, AreOver, IsValid, IsVerdict, family, element, SameCertificate};
ghost use Rattle.flows.specs.LoopGraph.{graph_of};
ghost use Rattle.flows.specs.Steps.{Step, DoesAll};
ghost use Rattle.flows.specs.Paths.{transition};
ghost use Rattle.flows.specs.Code.{Code, Goes, Sees, IsSeen, PointInv};
ghost use Rattle.flows.specs.Chart.{graph};
ghost use Rattle.flows.specs.Same.{IsSameGraph};
ghost use Rattle.flows.specs.Affine.{AreAffine};
ghost use Rattle.flows.specs.Rows.{Row, on, IsZeroOn, state_row, IsSoundRow, IsResidueRow, IsRest};
ghost use Rattle.flows.specs.Known.{Test, IsTest, IsKnown, HasProvable, IsKnownRow};
ghost use Rattle.flows.specs.Told.{IsZeroFor, IsTold, IsStateRow};
ghost use Rattle.flows.specs.Runs.{Offer, IsOffer, offered};
ghost use Rattle.flows.specs.Entries.{Entry};
ghost use Rattle.flows.specs.Kept.{listed, IsExact};
ghost use Rattle.flows.specs.NextTask.{HasJob};
ghost use Rattle.flows.specs.Tasks as task;
ghost use Rattle.flows.specs.Tasks.{Job};
ghost use Rattle.flows.specs.Searching.{State, Part, list_at, state_of, IsBasisFor, IsSearch, IsFinished, IsCompleteAt, KeepsTarget, TakesRests};
ghost use Rattle.flows.specs.Sides.{difference};
ghost use Rattle.flows.specs.Reciprocal.{reciprocal, product_less_one, reciprocal_certificate};
ghost use Rattle.flows.specs.Guards.{Guard, LetsIn, LetsPast, entered, left};

/// Each polynomial of an inductive family is an invariant at its node, and so is each in its ideal. So is what each transition to the node makes a member of the ideal of its generators. Where one is a member of the ideal of a node, no state is reached there.
pub fn inductive_families_are_sound()
    ensures listed { (G : Graph) → IsGraph G → (B : Family) → IsInductive G B → (v : ℕ)
        → v < G.nodes → Each (Inv G v) (B v) }
    ensures members { (G : Graph) → IsGraph G → (B : Family) → IsInductive G B → (v : ℕ)
        → v < G.nodes → (p : Terms Fraction) → Arity G.variables p
        → IsMember ℚ G.variables (B v) p → Inv G v p }
    ensures next { (G : Graph) → IsGraph G → (B : Family) → IsInductive G B → (v : ℕ) → 0 < v
        → (p : Terms Fraction) → Arity G.variables p
        → ((t : Transition) → In t G.transitions → t.to ≡ v
        → IsMember ℚ (t.unknowns + G.variables) (generators t B) (after G.variables t p))
        → Inv G v p }
    ensures never { (G : Graph) → IsGraph G → (B : Family) → IsInductive G B → (v : ℕ)
        → v < G.nodes → IsMember ℚ G.variables (B v) (constant G.variables ℚ.one)
        → (s : List Fraction) → Reached G v s → ⊥ }
{}

/// The polynomials of a valid certificate are an inductive family, and each certificate has exactly one verdict.
pub fn valid_certificates_are_inductive()
    ensures inductive { (G : Graph) (c : Certificate) → AreOver G c → IsValid G c
        → IsInductive G (family c) }
    ensures some { (G : Graph) (c : Certificate) → ((v : Verdict) × IsVerdict G c v) }
    ensures one { (G : Graph) (c : Certificate) (v w : Verdict) → IsVerdict G c v
        → IsVerdict G c w → v ≡ w }
{}

/// Certificates with the same polynomials have the same verdict, and a certificate has it on all graphs with the same polynomials.
pub fn verdicts_are_alike()
    ensures certificates { (G : Graph) → IsGraph G → (c d : Certificate) → AreOver G c
        → AreOver G d → SameCertificate c d → (v : Verdict) → IsVerdict G c v → IsVerdict G d v }
    ensures over { (G H : Graph) → IsGraph G → IsGraph H → IsSameGraph G H → (c : Certificate)
        → AreOver G c → AreOver H c }
    ensures graphs { (G H : Graph) → IsGraph G → IsGraph H → IsSameGraph G H → (c : Certificate)
        → AreOver G c → (v : Verdict) → IsVerdict G c v → IsVerdict H c v }
{}

/// A loop is a graph: what is reached at node 1 are the ends of its runs, and the invariants there are those of the loop.
pub fn loops_are_graphs<At>()
    ensures graph { (program : Program (Expr At)) → IsGraph (graph_of program) }
    ensures reached { (program : Program (Expr At)) (r : Run program)
        → Reached (graph_of program) 1 r.end }
    ensures only { (program : Program (Expr At)) → IsWellFormed program → (z : List Fraction)
        → Reached (graph_of program) 1 z → ((r : Run program) × (r.end ≡ z)) }
    ensures invariants { (program : Program (Expr At)) → IsWellFormed program
        → (p : Terms Fraction) → Inv (graph_of program) 1 p ↔ loop.Inv program p }
{}

/// The union of two inductive families is inductive, and what is in the ideal of an inductive family at a node may be listed there.
pub fn inductive_families_join()
    ensures union { (G : Graph) → IsGraph G → (B C : Family) → IsInductive G B → IsInductive G C
        → IsInductive G (union B C) }
    ensures one { (G : Graph) → IsGraph G → (B : Family) → IsInductive G B → (v : ℕ) → 0 < v
        → (q : Terms Fraction) → Arity G.variables q → IsMember ℚ G.variables (B v) q
        → IsInductive G (with_one v q B) }
{}

/// What is provable at a node with a degree is an ideal of invariants. Up to the degree it is what inductive families of this degree list there, and with the degree it can only grow.
pub fn provable_polynomials_are_an_ideal()
    ensures ideal { (G : Graph) → IsGraph G → (d v : ℕ) → v < G.nodes
        → IsIdeal G.variables (IsProvable G d v) }
    ensures invariants { (G : Graph) → IsGraph G → (d v : ℕ) → v < G.nodes → (p : Terms Fraction)
        → IsProvable G d v p → Inv G v p }
    ensures listed { (G : Graph) → IsGraph G → (d v : ℕ) → 0 < v → v < G.nodes
        → (p : Terms Fraction) → IsAtMost d p → IsProvable G d v p
        → ((B : Family) × IsInductive G B × HasDegree G d B × In p (B v)) }
    ensures grows { (G : Graph) (d e v : ℕ) → d ≤ e → (p : Terms Fraction) → IsProvable G d v p
        → IsProvable G e v p }
{}

/// The lists that are reduced up to a degree for what is provable with it are the greatest inductive family of this degree. There is one such family, and what is in the ideals of a greatest family is what is provable.
pub fn there_is_one_greatest_family()
    ensures greatest { (G : Graph) → IsGraph G → (d : ℕ) → 0 < G.nodes → (B : Family)
        → ((v : ℕ) → v < G.nodes → IsReducedUpTo G.variables d (B v) (IsProvable G d v))
        → IsGreatest G d B }
    ensures one { (G : Graph) → IsGraph G → (d v : ℕ) → v < G.nodes
        → (gs hs : List (Terms Fraction)) → IsReducedUpTo G.variables d gs (IsProvable G d v)
        → IsReducedUpTo G.variables d hs (IsProvable G d v) → gs ≡ hs }
    ensures provable { (G : Graph) → IsGraph G → (d : ℕ) (B : Family) → IsGreatest G d B → (v : ℕ)
        → v < G.nodes → (p : Terms Fraction) → Arity G.variables p
        → IsProvable G d v p ↔ IsMember ℚ G.variables (B v) p }
{}

/// The rows of states that are reached are 0 on what is provable, and so are those of the rests of what a transition makes of monomials, by a basis for lists that have what is provable where it comes from.
pub fn rows_are_sound()
    ensures state { (G : Graph) → IsGraph G → (d v : ℕ) → v < G.nodes → (s : List Fraction)
        → Reached G v s → IsSoundRow G d v (state_row s) }
    ensures rest { (G : Graph) → IsGraph G → (d : ℕ) (t : Transition) → In t G.transitions
        → (B : Family) → AllArity G.variables (B t.from)
        → ((C : Family) → IsInductive G C → HasDegree G d C
        → Each (IsMember ℚ G.variables (B t.from)) (C t.from))
        → (gs : List (Terms Fraction))
        → IsBasisOf rationals grevlex (t.unknowns + G.variables) gs (generators t B)
        → (rest : List ℕ → Terms Fraction)
        → ((e : List ℕ) → length e ≡ G.variables → sum e ≤ d
        → IsRest gs (t.unknowns + G.variables) (after G.variables t ((e, ℚ.one) ∷ [])) (rest e))
        → (r : List ℕ) → IsSoundRow G d t.to (λ e. coefficient ℚ (rest e) r) }
{}

/// Lists that are reduced up to a degree for what rows are 0 on are those of what is provable, where the rows are sound and the lists inductive. Where the rows of a node are those of states that are reached, a list of invariants is reduced for all invariants there.
pub fn rows_tell_the_greatest_family()
    ensures greatest { (G : Graph) → IsGraph G → (d : ℕ) (rows : ℕ → List Row)
        → ((v : ℕ) → v < G.nodes → Each (IsSoundRow G d v) (rows v)) → (B : Family)
        → IsInductive G B
        → ((v : ℕ) → v < G.nodes → IsReducedUpTo G.variables d (B v) (IsZeroOn (rows v)))
        → (v : ℕ) → v < G.nodes → IsReducedUpTo G.variables d (B v) (IsProvable G d v) }
    ensures complete { (G : Graph) (d v : ℕ) (gs : List (Terms Fraction)) → Each (Inv G v) gs
        → (ss : List (List Fraction)) → Each (Reached G v) ss
        → IsReducedUpTo G.variables d gs (IsZeroOn (map state_row ss))
        → IsReducedUpTo G.variables d gs (Inv G v) }
{}

/// The invariants at a node are an ideal. Where no transition has zeros and all are affine in the variables, the lists that are reduced up to a degree for the invariants are the greatest inductive family, no invariant of the degree fails to be provable, and a list that is reduced for what is provable is reduced for all invariants.
pub fn affine_graphs_have_all_invariants()
    ensures ideal { (G : Graph) (v : ℕ) → IsIdeal G.variables (Inv G v) }
    ensures greatest { (G : Graph) → IsGraph G → AreAffine G → (d : ℕ) (B : Family) → 0 < G.nodes
        → ((v : ℕ) → v < G.nodes → IsReducedUpTo G.variables d (B v) (Inv G v))
        → IsGreatest G d B }
    ensures provable { (G : Graph) → IsGraph G → AreAffine G → (d v : ℕ) → v < G.nodes
        → (p : Terms Fraction) → IsAtMost d p → Inv G v p → ¬ (¬ (IsProvable G d v p)) }
    ensures all { (G : Graph) → IsGraph G → AreAffine G → (d v : ℕ) → v < G.nodes
        → (gs : List (Terms Fraction)) → IsReducedUpTo G.variables d gs (IsProvable G d v)
        → IsReducedUpTo G.variables d gs (Inv G v) }
{}

/// Invariants at a node with distinct leads, of degree at most d, no term of which another's lead divides, are the reduced list up to d of all invariants there, where the monomials that no lead divides have rows of residues at states that are reached, which are independent by pivots.
pub fn residues_tell_all_invariants()
    ensures { (G : Graph) (v d : ℕ) (gs : List (Terms Fraction)) → Each (Inv G v) gs
        → AreTidy G.variables d gs → (es : List (List ℕ)) → HasStandard G.variables d gs es
        → AreDistinct es → (k : ℕ) → 2 ≤ k → (rows stored : List (List ℤ))
        → Each (IsResidueRow G v (pos k) es) rows → IsTriangularFrom (pos k) 0 stored
        → Each (IsCombinationModulo (pos k) rows) stored → length stored ≡ length es
        → IsReducedUpTo G.variables d gs (Inv G v) }
{}

/// The transition of steps leads exactly where the steps do.
pub fn transitions_are_steps<At>()
    ensures { (n u w : ℕ) (cs : List (Step (Expr At))) (s z : List Fraction) → length s ≡ n
        → Leads (transition n u w cs) s z ↔ DoesAll cs s z }
{}

/// A program is a graph: what is seen at its points and its end are the states that are reached at the nodes of these numbers, and the invariants are the same. Two sides are equal at all states that are seen at a point where their difference is an invariant there.
pub fn programs_are_graphs<At>()
    ensures graph { (n : ℕ) (c : Code (Expr At)) → IsGraph (graph n c) }
    ensures seen { (n : ℕ) (c : Code (Expr At)) (v : ℕ) → 0 < v → (z : List Fraction)
        → IsSeen n c v z ↔ Reached (graph n c) v z }
    ensures invariants { (n : ℕ) (c : Code (Expr At)) (v : ℕ) → 0 < v → (p : Terms Fraction)
        → PointInv n c v p ↔ Inv (graph n c) v p }
    ensures sides { (n : ℕ) (c : Code (Expr At)) (v : ℕ) → 0 < v → (e f : Expr At)
        → PointInv n c v (difference n e f)
        ↔ ((z : List Fraction) → IsSeen n c v z → value e z ≡ value f z) }
{}

/// Graphs with the same polynomials reach the same states, and have the same invariants and the same inductive families.
pub fn same_graphs_are_alike()
    ensures reached { (G H : Graph) → IsSameGraph G H → (v : ℕ) (s : List Fraction)
        → Reached G v s ↔ Reached H v s }
    ensures invariants { (G H : Graph) → IsSameGraph G H → (v : ℕ) (p : Terms Fraction)
        → Inv G v p ↔ Inv H v p }
    ensures inductive { (G H : Graph) → IsGraph G → IsGraph H → IsSameGraph G H → (B : Family)
        → IsInductive G B ↔ IsInductive H B }
{}

/// What is known at a node, of states that are reached and of bases that have what is provable, is an ideal that has what is provable. The rows of the states and of rests by the bases are 0 on it. A list of what is known, with standard monomials whose rows are independent by pivots modulo a number, is reduced for it; and where such lists are inductive they are reduced for what is provable.
pub fn known_polynomials_tell_the_greatest_family()
    ensures ideal { (G : Graph) → IsGraph G → (v : ℕ) (ss : List (List Fraction))
        (ts : List Test) → Each (IsTest G v) ts → IsIdeal G.variables (IsKnown G ss ts) }
    ensures provable { (G : Graph) → IsGraph G → (d v : ℕ) → v < G.nodes
        → (ss : List (List Fraction)) (ts : List Test) → Each (IsTest G v) ts
        → Each (Reached G v) ss → Each (HasProvable G d) ts → (p : Terms Fraction)
        → IsProvable G d v p → IsKnown G ss ts p }
    ensures state { (G : Graph) (ss : List (List Fraction)) (ts : List Test)
        (s : List Fraction) → In s ss → (p : Terms Fraction) → IsKnown G ss ts p
        → on (state_row s) p ≡ ℚ.zero }
    ensures rest { (G : Graph) → IsGraph G → (d v : ℕ) (ss : List (List Fraction))
        (ts : List Test) → Each (IsTest G v) ts → (x : Test) → In x ts
        → IsBasisOf rationals grevlex (x.transition.unknowns + G.variables) x.basis x.basis
        → (rest : List ℕ → Terms Fraction)
        → ((e : List ℕ) → length e ≡ G.variables → sum e ≤ d
        → IsRest x.basis (x.transition.unknowns + G.variables)
        (after G.variables x.transition ((e, ℚ.one) ∷ [])) (rest e))
        → (r : List ℕ) (p : Terms Fraction) → IsAtMost d p → IsKnown G ss ts p
        → on (λ e. coefficient ℚ (rest e) r) p ≡ ℚ.zero }
    ensures reduced { (G : Graph) → IsGraph G → (d v : ℕ) (ss : List (List Fraction))
        (ts : List Test) → Each (IsTest G v) ts → (gs : List (Terms Fraction))
        → Each (IsKnown G ss ts) gs → AreTidy G.variables d gs → (es : List (List ℕ))
        → HasStandard G.variables d gs es → AreDistinct es → Each (λ e. sum e ≤ d) es → (k : ℕ)
        → 2 ≤ k → (rows stored : List (List ℤ)) → Each (IsKnownRow G d ss ts (pos k) es) rows
        → IsTriangularFrom (pos k) 0 stored → Each (IsCombinationModulo (pos k) rows) stored
        → length stored ≡ length es → IsReducedUpTo G.variables d gs (IsKnown G ss ts) }
    ensures greatest { (G : Graph) → IsGraph G → (d : ℕ) (ss : ℕ → List (List Fraction))
        (ts : ℕ → List Test) → ((v : ℕ) → v < G.nodes → Each (IsTest G v) (ts v))
        → ((v : ℕ) → v < G.nodes → Each (Reached G v) (ss v))
        → ((v : ℕ) → v < G.nodes → Each (HasProvable G d) (ts v)) → (B : Family)
        → IsInductive G B
        → ((v : ℕ) → v < G.nodes → IsReducedUpTo G.variables d (B v) (IsKnown G (ss v) (ts v)))
        → (v : ℕ) → v < G.nodes → IsReducedUpTo G.variables d (B v) (IsProvable G d v) }
{}

/// A basis has what is provable with a degree where a transition comes from, if its ideal has the generators of lists that have it; and a list that is reduced for what is known at a node has it.
pub fn known_lists_have_what_is_provable()
    ensures list { (G : Graph) → IsGraph G → (d v : ℕ) → v < G.nodes
        → (ss : List (List Fraction)) (ts : List Test) → Each (IsTest G v) ts
        → Each (Reached G v) ss → Each (HasProvable G d) ts → (gs : List (Terms Fraction))
        → IsReducedUpTo G.variables d gs (IsKnown G ss ts) → (C : Family) → IsInductive G C
        → HasDegree G d C → Each (IsMember ℚ G.variables gs) (C v) }
    ensures basis { (G : Graph) → IsGraph G → (d v : ℕ) (x : Test) → IsTest G v x → (B : Family)
        → AllArity G.variables (B x.transition.from)
        → ((C : Family) → IsInductive G C → HasDegree G d C
        → Each (IsMember ℚ G.variables (B x.transition.from)) (C x.transition.from))
        → Each (IsMember ℚ (x.transition.unknowns + G.variables) x.basis)
        (generators x.transition B)
        → HasProvable G d x }
{}

/// The program `vars x, y; y = 1/x; assert x*y = 1;` has a valid certificate, by computation, so x*y - 1 is an invariant at its assertion.
pub fn a_reciprocal_has_a_certificate()
    ensures over { AreOver (graph 2 reciprocal) reciprocal_certificate }
    ensures valid { IsValid (graph 2 reciprocal) reciprocal_certificate }
    ensures invariant { PointInv 2 reciprocal 1 product_less_one }
{}

/// Code behind a guard goes and sees where the guard lets in what the code does, and behind its opposite where it lets past.
pub fn guards_let_in_and_past<At>()
    ensures enters { (g : Guard (Expr At)) (c : Code (Expr At)) (s z : List Fraction)
        → Goes (entered g c) s z ↔ (LetsIn g s × Goes c s z) }
    ensures leaves { (g : Guard (Expr At)) (c : Code (Expr At)) (s z : List Fraction)
        → Goes (left g c) s z ↔ (LetsPast g s × Goes c s z) }
    ensures sees_behind { (g : Guard (Expr At)) (c : Code (Expr At)) (i v : ℕ) (s z : List Fraction)
        → Sees i (entered g c) s v z ↔ (LetsIn g s × Sees i c s v z) }
    ensures sees_past { (g : Guard (Expr At)) (c : Code (Expr At)) (i v : ℕ) (s z : List Fraction)
        → Sees i (left g c) s v z ↔ (LetsPast g s × Sees i c s v z) }
{}

/// Members of an ideal are its reduced list up to a degree, where they are tidy, and the monomials that no lead divides have as many rows, which are 0 on the ideal up to the degree and independent on these monomials. So are the lists of an inductive family for what is provable, with rows that are sound; invariants for all invariants, with the rows of states that are reached; and what is known for what is known, with rows that are 0 on it.
pub fn rows_tell_reduced_lists()
    ensures greatest { (G : Graph) → IsGraph G → (d q : ℕ) → 2 ≤ q → (B : Family)
        → IsInductive G B
        → ((v : ℕ) → 0 < v → v < G.nodes → IsTold G.variables d (IsSoundRow G d v) q (B v))
        → (v : ℕ) → v < G.nodes → IsReducedUpTo G.variables d (B v) (IsProvable G d v) }
    ensures complete { (G : Graph) (d q : ℕ) → 2 ≤ q → (v : ℕ) (gs : List (Terms Fraction))
        → Each (Inv G v) gs → IsTold G.variables d (IsStateRow G v) q gs
        → IsReducedUpTo G.variables d gs (Inv G v) }
    ensures known { (G : Graph) → IsGraph G → (d q : ℕ) → 2 ≤ q → (v : ℕ)
        → (ss : List (List Fraction)) (ts : List Test) → Each (IsTest G v) ts
        → (gs : List (Terms Fraction)) → Each (IsKnown G ss ts) gs
        → IsTold G.variables d (IsZeroFor d (IsKnown G ss ts)) q gs
        → IsReducedUpTo G.variables d gs (IsKnown G ss ts) }
    ensures fractions { (G : Graph) → IsGraph G → (d v : ℕ) → v < G.nodes
        → (gs : List (Terms Fraction)) → Each (IsProvable G d v) gs
        → AreTidy G.variables d gs → (es : List (List ℕ)) → HasStandard G.variables d gs es
        → Each (λ e. sum e ≤ d) es → (rows : List Row) → Each (IsSoundRow G d v) rows
        → HasNoCombination G.variables es (IsZeroOn rows)
        → IsReducedUpTo G.variables d gs (IsProvable G d v) }
{}

/// Where a search has ended, its lists are an inductive family, and the greatest one of the degree; and a list that rows of states alone tell is reduced for all invariants at its node.
pub fn ended_searches_find_the_greatest_family()
    ensures offers { (G : Graph) (v : ℕ) (o : Offer) → IsOffer G v o → Reached G v (offered o) }
    ensures inductive { (G : Graph) → IsGraph G → (d q : ℕ) → 2 ≤ q → (parts : List Part)
        → IsSearch G d q parts → IsFinished G (state_of G parts)
        → IsInductive G (list_at (state_of G parts)) }
    ensures reduced { (G : Graph) → IsGraph G → (d q : ℕ) → 2 ≤ q → (parts : List Part)
        → IsSearch G d q parts → IsFinished G (state_of G parts) → (v : ℕ) → v < G.nodes
        → IsReducedUpTo G.variables d (list_at (state_of G parts) v) (IsProvable G d v) }
    ensures greatest { (G : Graph) → IsGraph G → (d q : ℕ) → 2 ≤ q → (parts : List Part)
        → IsSearch G d q parts → IsFinished G (state_of G parts) → 0 < G.nodes
        → IsGreatest G d (list_at (state_of G parts)) }
    ensures complete { (G : Graph) → IsGraph G → (d q : ℕ) → 2 ≤ q → (parts : List Part)
        → IsSearch G d q parts → IsFinished G (state_of G parts) → (v : ℕ) → v < G.nodes
        → IsCompleteAt G d q (state_of G parts) v
        → IsReducedUpTo G.variables d (list_at (state_of G parts) v) (Inv G v) }
{}

/// The generators of a list are polynomials in order, where its elements and the zeros are. A completion that has ended gives a basis for the source's list and the zeros, whose members are those of the generators. A division by it that has ended gives a rest; a rest 0 makes a member; and the rest of the rest of a polynomial's image, times the image of another, is that of the product's image.
pub fn tasks_give_bases_and_rests()
    ensures polynomials { (n : ℕ) (t : Transition) (gs : List (Terms Fraction))
        → Each (IsPolynomial ℚ grevlex n) gs
        → Each (IsPolynomial ℚ grevlex (t.unknowns + n)) t.zeros
        → Each (IsPolynomial ℚ grevlex (t.unknowns + n)) (generators t (λ v. gs)) }
    ensures basis { (G : Graph) (t : Transition) (source : List (Terms Fraction))
        → Each (IsPolynomial ℚ grevlex (t.unknowns + G.variables)) (generators t (λ v. source))
        → (s : elimination.State Fraction)
        → LeadsTo next_extended
        (elimination.initial_state rationals grevlex (generators t (λ v. source))) s
        → HasEnded next_extended s → IsBasisFor G t source (extended_list s)
        × IsReducedFor rationals grevlex (t.unknowns + G.variables) (extended_list s)
        (IsMember ℚ (t.unknowns + G.variables) (extended_list s))
        × ((p : Terms Fraction) → Arity (t.unknowns + G.variables) p
        → IsMember ℚ (t.unknowns + G.variables) (extended_list s) p
        → IsMember ℚ (t.unknowns + G.variables) (generators t (λ v. source)) p) }
    ensures rest { (m : ℕ) (gs : List (Terms Fraction))
        → IsReducedFor rationals grevlex m gs (IsMember ℚ m gs) → (p : Terms Fraction)
        → IsPolynomial ℚ grevlex m p → (s : division.State Fraction)
        → LeadsTo (division.next rationals grevlex gs) (division.initial_state gs p) s
        → HasEnded (division.next rationals grevlex gs) s → IsRest gs m p (division.remainder s) }
    ensures none { (m : ℕ) (gs : List (Terms Fraction)) (p : Terms Fraction) → IsRest gs m p []
        → IsMember ℚ m gs p }
    ensures same { (m : ℕ) (gs : List (Terms Fraction)) → AllArity m gs → (p q r : Terms Fraction)
        → Arity m q → Same ℚ p q → IsRest gs m p r → IsRest gs m q r }
    ensures product { (G : Graph) (t : Transition) (gs : List (Terms Fraction))
        → AllArity (t.unknowns + G.variables) gs → AllArity (t.unknowns + G.variables) t.images
        → (p x f r u : Terms Fraction) → Arity G.variables p → Arity G.variables x
        → Arity (t.unknowns + G.variables) f → Same ℚ f (after G.variables t x)
        → IsRest gs (t.unknowns + G.variables) (after G.variables t p) r
        → IsRest gs (t.unknowns + G.variables) (times ℚ r f) u
        → IsRest gs (t.unknowns + G.variables) (after G.variables t (times ℚ p x)) u }
{}

/// Where the task of a transition has ended with all rests 0, what the transition makes of the elements of its target's list are members of the ideal of the source's list and the zeros. Where it has ended with rests, they are those of what it makes of the monomials up to the degree, by a basis for these.
pub fn ended_tasks_keep_the_target()
    ensures kept { (G : Graph) → IsGraph G → (d : ℕ) (j : Job)
        → j.monomials ≡ monomials_up_to G.variables d → (let t = j.transition in
        In t G.transitions
        → Each (IsPolynomial ℚ grevlex (t.unknowns + G.variables)) (generators t (λ v. j.source))
        → (es : List Entry) (s : task.State) → IsRun (task.moves G.variables j) task.fresh es s
        → task.next G.variables j s ≡ task.kept → (gs : List (Terms Fraction))
        → j.target ≡ Some gs → Each (λ p. IsMember ℚ (t.unknowns + G.variables)
        (generators t (λ v. j.source)) (after G.variables t p)) gs) }
    ensures basis { (G : Graph) → IsGraph G → (d : ℕ) (j : Job)
        → j.monomials ≡ monomials_up_to G.variables d → (let t = j.transition in
        In t G.transitions
        → Each (IsPolynomial ℚ grevlex (t.unknowns + G.variables)) (generators t (λ v. j.source))
        → (es : List Entry) (s : task.State) → IsRun (task.moves G.variables j) task.fresh es s
        → (basis : List (Terms Fraction)) (rs : task.Rests)
        → task.next G.variables j s ≡ task.rested basis rs → IsBasisFor G t j.source basis) }
    ensures rests { (G : Graph) → IsGraph G → (d : ℕ) (j : Job)
        → j.monomials ≡ monomials_up_to G.variables d → (let t = j.transition in
        In t G.transitions
        → Each (IsPolynomial ℚ grevlex (t.unknowns + G.variables)) (generators t (λ v. j.source))
        → (es : List Entry) (s : task.State) → IsRun (task.moves G.variables j) task.fresh es s
        → (basis : List (Terms Fraction)) (rs : task.Rests)
        → task.next G.variables j s ≡ task.rested basis rs → (e : List ℕ)
        → length e ≡ G.variables → sum e ≤ d → IsRest basis (t.unknowns + G.variables)
        (after G.variables t ((e, ℚ.one) ∷ [])) (task.rest_in rs e)) }
{}

/// Where the task that comes next in a search has ended with all rests 0, its transition is done by it; where it has ended with rests, and the source's list is exact, they are taken by its basis.
pub fn searches_go_on_by_ended_tasks()
    ensures keeps { (G : Graph) → IsGraph G
        → ((t : Transition) → In t G.transitions
        → Each (IsPolynomial ℚ grevlex (t.unknowns + G.variables)) t.zeros)
        → (d q : ℕ) → 2 ≤ q → (parts : List Part) → IsSearch G d q parts → (j : Job)
        → HasJob G d q (state_of G parts) j → (es : List Entry) (b : task.State)
        → IsRun (task.moves G.variables j) task.fresh es b
        → task.next G.variables j b ≡ task.kept
        → (let s = state_of G parts in let t = j.transition in let x = s.nodes t.to in
        x.listing ≡ listed (list_at s t.to))
        → KeepsTarget G d q (state_of G parts) j.place j.transition }
    ensures takes { (G : Graph) → IsGraph G
        → ((t : Transition) → In t G.transitions
        → Each (IsPolynomial ℚ grevlex (t.unknowns + G.variables)) t.zeros)
        → (d q : ℕ) → 2 ≤ q → (parts : List Part) → IsSearch G d q parts → (j : Job)
        → HasJob G d q (state_of G parts) j → (es : List Entry) (b : task.State)
        → IsRun (task.moves G.variables j) task.fresh es b
        → (basis : List (Terms Fraction)) (rs : task.Rests)
        → task.next G.variables j b ≡ task.rested basis rs
        → ¬ (KeepsTarget G d q (state_of G parts) j.place j.transition)
        → (let t = j.transition in 0 < t.to)
        → (let s = state_of G parts in let t = j.transition in
        IsExact G d (s.nodes t.from) (list_at s t.from))
        → TakesRests G d q (state_of G parts) j.place
        (record { transition = j.transition; basis = basis }) }
{}

/// Each polynomial that a valid certificate lists is an invariant at its node. Where the graph has the polynomials of a program's, it is 0 at each state that is seen at the point, and two sides whose difference is listed are equal there.
pub fn valid_certificates_hold<At>()
    ensures nodes { (G : Graph) → IsGraph G → (c : Certificate) → AreOver G c → IsValid G c
        → (v : ℕ) → v < G.nodes → Each (Inv G v) (family c v) }
    ensures points { (G : Graph) → IsGraph G → (c : Certificate) → AreOver G c → IsValid G c
        → (n : ℕ) (code : Code (Expr At)) → IsSameGraph G (graph n code) → (v : ℕ) → 0 < v
        → v < G.nodes
        → Each (λ p. (z : List Fraction) → IsSeen n code v z → value_at ℚ p z ≡ ℚ.zero)
        (family c v) }
    ensures sides { (G : Graph) → IsGraph G → (c : Certificate) → AreOver G c → IsValid G c
        → (n : ℕ) (code : Code (Expr At)) → IsSameGraph G (graph n code) → (v : ℕ) → 0 < v
        → v < G.nodes → (e f : Expr At) (i : ℕ) → i < length (family c v)
        → Same ℚ (element c v i) (difference n e f) → (z : List Fraction) → IsSeen n code v z
        → value e z ≡ value f z }
{}
