//! The laws of full certificates, each as the contract of a function that does nothing.

ghost use Rattle.std.specs.Prelude.{◌≡◌, ℕ, ◌+◌, ◌<◌, ◌≤◌, false, List, [], get_or, length};
ghost use Rattle.algebra.specs.Each.{Each};
ghost use Rattle.algebra.specs.FieldArithmetic.{FieldArithmetic, IsField};
ghost use Rattle.algebra.specs.Fraction.{Fraction, ℚ};
ghost use Rattle.polynomials.specs.Terms.{Terms};
ghost use Rattle.polynomials.specs.Order.{Rank, IsMonomialOrder};
ghost use Rattle.polynomials.specs.Polynomial.{Arity, AllArity, IsPolynomial};
ghost use Rattle.ideals.specs.Members.{IsMember};
ghost use Rattle.machines.specs.Basis.{AtPlaces, IsBasisOf};
ghost use Rattle.machines.specs.Cut.{lead_number, lead_of};
ghost use Rattle.machines.specs.Elimination.{in_front};
ghost use Rattle.machines.specs.Pairs.{coprime};
ghost use Rattle.loops.specs.Program.{Expr, Program};
ghost use Rattle.loops.specs.Inv.{Inv};
ghost use Rattle.loops.specs.WellFormed.{IsWellFormed};
ghost use Rattle.solvable_maps.specs.Iterations.{width, IsClosedForm};
ghost use Rattle.rounds.specs.Form.{Form};
ghost use Rattle.rounds.specs.Generate.{Generates};
ghost use Rattle.rounds.specs.Word.{AtMost, Stays, IsZeroAtStarts};
ghost use Rattle.corollaries.specs.Cover.{Covers};
ghost use Rattle.corollaries.specs.Representation.{IsLcmRepresentation};
ghost use Rattle.corollaries.specs.Stage.{Stage, StageHolds, IsStageOver};
ghost use Rattle.corollaries.specs.FormIdentities.{IsRightForm};
ghost use Rattle.corollaries.specs.Full.{FullCertificate, before, IsFullOver};
ghost use Rattle.corollaries.specs.Parts.{AllHold, Verdict, IsVerdict};

/// The polynomials of a valid full certificate generate the invariants: each of them is one, and
/// each invariant is a sum of products with them.
pub fn valid_full_certificates_list_all_invariants<At>()
    ensures { (program : Program (Expr At)) → IsWellFormed program → (c : FullCertificate)
        → IsFullOver program c → AllHold program c
        → Generates (length program.names) c.basis (Inv program) }
{}

/// Each full certificate has exactly one verdict.
pub fn full_certificates_have_one_verdict<At>()
    ensures some { (program : Program (Expr At)) (c : FullCertificate) → IsFullOver program c
        → ((v : Verdict) × IsVerdict program c v) }
    ensures one { (program : Program (Expr At)) (c : FullCertificate) (v u : Verdict)
        → IsVerdict program c v → IsVerdict program c u → v ≡ u }
{}

/// A monic list each of whose pairs has its S-polynomial as a sum of products with the list, each
/// below the least common multiple of the leads, is a Gröbner basis of its own ideal. Pairs with
/// coprime leads need no such sum.
pub fn lists_with_lcm_representations_are_bases<A>()
    ensures but_coprime { (F : FieldArithmetic A) → IsField F → (O : Rank) → IsMonomialOrder O
        → (m : ℕ) (gs : List (Terms A)) → AtPlaces (IsPolynomial F.arithmetic O m) gs
        → AtPlaces (λ g. lead_number F g ≡ F.one) gs
        → ((i j : ℕ) → i < j → j < length gs
        → coprime (lead_of (get_or gs i [])) (lead_of (get_or gs j [])) ≡ false
        → ((qs : List (Terms A)) × Each (IsPolynomial F.arithmetic O m) qs
        × IsLcmRepresentation F O gs (i, j) qs))
        → IsBasisOf F O m gs gs }
    ensures all { (F : FieldArithmetic A) → IsField F → (O : Rank) → IsMonomialOrder O
        → (m : ℕ) (gs : List (Terms A)) → AtPlaces (IsPolynomial F.arithmetic O m) gs
        → AtPlaces (λ g. lead_number F g ≡ F.one) gs
        → ((i j : ℕ) → i < j → j < length gs → ((qs : List (Terms A))
        × Each (IsPolynomial F.arithmetic O m) qs × IsLcmRepresentation F O gs (i, j) qs))
        → IsBasisOf F O m gs gs }
{}

/// What has none of the first variables in the ideal of the list that a stage begins with is in the
/// ideal of the list that it gives.
pub fn stages_eliminate()
    ensures { (k m : ℕ) (hs : List (Terms Fraction)) (s : Stage) → IsStageOver k m s
        → StageHolds k hs s → (p : Terms Fraction) → Arity m p
        → IsMember ℚ (k + m) hs (in_front k p) → IsMember ℚ m s.out p }
{}

/// The list before round r of a valid full certificate has at least the invariants of level r.
pub fn rounds_cover_levels<At>()
    ensures { (program : Program (Expr At)) → IsWellFormed program → (c : FullCertificate)
        → IsFullOver program c → AllHold program c → (r : ℕ) → r ≤ length c.rounds
        → Covers (length program.names) (before program c r)
        (Stays program (IsZeroAtStarts program) (AtMost r)) }
{}

/// A form over a coprime base that is the variables at 0, and at n + 1 the map of what it is at n,
/// is a closed form.
pub fn right_forms_are_closed()
    ensures { (images : List (Terms Fraction)) (m : ℕ) → length images ≡ m → (f : Form)
        → AllArity (width (length f.base) m) f.polys → IsRightForm images m f
        → IsClosedForm f.base images f.polys }
{}
