//! Laws over two commands, each as the contract of a function that does nothing.
ghost use Rattle.std.specs.Prelude.{◌≡◌, ◌↔◌, ◌⊎◌, ◌≤◌, List, length, ℕ, Some, Ok};
ghost use Rattle.machines.specs.Journal.{Journal};
ghost use Rattle.cert_form.specs.Form.{most_elements};
ghost use Rattle.io_edge.specs.Clauses.{IsExcused};
ghost use Rattle.io_edge.specs.Outcome.{Call};
ghost use Rattle.analysis_commands.specs.declared.kind.Kind.TheVariants.{Basis, Certificate};
ghost use Rattle.analysis_commands.specs.Headline.{ShowsAnalysis};
ghost use Rattle.analysis_commands.specs.Causes.{HasFinished};
ghost use Rattle.loops.specs.Certificate as certificate;
ghost use Rattle.certificate_commands.specs.CertificateArguments.{Request};
ghost use Rattle.certificate_commands.specs.CheckClauses.{Checks};
ghost use Rattle.certificate_commands.specs.CheckJudging.{IsShort, certificate_in};
ghost use Rattle.certificate_commands.specs.CheckfullClauses.{ChecksFull};
ghost use Rattle.certificate_commands.specs.CheckfullJudging as checkfull;
ghost use Rattle.closing_commands.specs.declared.evidence.Evidence.{Evidence};
ghost use Rattle.closing_commands.specs.declared.evidence.Evidence.TheVariants as kinds;
ghost use Rattle.closing_commands.specs.DecideClauses as decide_clauses;
ghost use Rattle.closing_commands.specs.DecideHeadline.{Shows, ShowsCertificate, ShowsCounter};
ghost use Rattle.closing_commands.specs.DegreeClauses as degree_clauses;
ghost use Rattle.closing_commands.specs.DegreeHeadline.{HaveSameInvariantsUpTo, ShowsList, ShowsUpToProof};
ghost use Rattle.closures.specs.UpTo.{low_part};
ghost use Rattle.command_parts.specs.BasisTexts.{basis_text};
ghost use Rattle.certificate_commands.specs.FullHeadline.{ShowsFull};
ghost use Rattle.certificate_commands.specs.FullCauses as full_causes;
ghost use Rattle.loops.specs.Program.{Expr, Program};
ghost use Rattle.command_parts.specs.Equations.{HoldsAfter};
ghost use Rattle.analysis_commands.specs.MemberHeadline.{ShowsYes, ShowsNo};
ghost use Rattle.replay_commands.specs.CounterHeadline.{IsQuestion, ShowsCounterRun};

use io_edge::Status;

/// What `cert` said of a text, where it has at most as many polynomials as a file may have and no identity of what is read there is too
/// long, `check` of the same text calls valid, unless a number doesn't fit there, memory is wanting, or a file or the sink fails.
pub fn printed_certificates_are_called_valid()
    ensures { (text said : List ℕ) (budget : ℕ) (m : Journal)
        (shows : ShowsAnalysis Certificate text said) → HasFinished text budget m →
        length shows.certificate.basis ≤ most_elements →
        ((listed : certificate.Certificate) → certificate_in shows.loop said ≡ Ok listed →
        IsShort shows.loop listed) →
        (request : Request) (call : Call) → Checks request call →
        call.files.before.told request.file ≡ Some text →
        call.files.before.told request.certificate ≡ Some said →
        (call.status ≡ Status.Yes) ⊎ ((call.status ≡ Status.Wide) ⊎ IsExcused call.status) }
{}

/// What `prove` said of a text and an equation, or `cert` of a text up to a degree, where it has at most as many polynomials as a file may have
/// and no identity of what is read there is too long, `check` of the same text calls valid, unless a number doesn't fit there, memory is
/// wanting, or a file or the sink fails.
pub fn printed_proofs_are_called_valid()
    ensures prove { (text equation said : List ℕ) (budget : ℕ) (m : Journal)
        (shows : ShowsCertificate text equation said) →
        decide_clauses.HasEnded text equation budget m kinds.Certificate →
        length shows.proof.certificate.basis ≤ most_elements →
        ((listed : certificate.Certificate) → certificate_in shows.loop said ≡ Ok listed →
        IsShort shows.loop listed) →
        (request : Request) (call : Call) → Checks request call →
        call.files.before.told request.file ≡ Some text →
        call.files.before.told request.certificate ≡ Some said →
        (call.status ≡ Status.Yes) ⊎ ((call.status ≡ Status.Wide) ⊎ IsExcused call.status) }
    ensures up_to { (text said : List ℕ) (d budget : ℕ) (m : Journal)
        (shows : ShowsUpToProof text d said) →
        degree_clauses.HasEnded kinds.Certificate text d budget m →
        length shows.proof.certificate.basis ≤ most_elements →
        ((listed : certificate.Certificate) → certificate_in shows.loop said ≡ Ok listed →
        IsShort shows.loop listed) →
        (request : Request) (call : Call) → Checks request call →
        call.files.before.told request.file ≡ Some text →
        call.files.before.told request.certificate ≡ Some said →
        (call.status ≡ Status.Yes) ⊎ ((call.status ≡ Status.Wide) ⊎ IsExcused call.status) }
{}

/// Two loops over the same variables print equal texts up to a degree exactly where they have the same invariants of degree at most it.
pub fn equal_bases_up_to_a_degree_are_equal_invariants()
    ensures { (d : ℕ) (text said other answer : List ℕ) (a : ShowsList text d said)
        (b : ShowsList other d answer) → a.loop.names ≡ b.loop.names →
        (said ≡ answer) ↔ HaveSameInvariantsUpTo d a.loop b.loop }
{}

/// Where `basis` answers of a loop, what it prints up to a degree is what it prints of all invariants without the elements above the degree.
pub fn bases_up_to_a_degree_are_low_parts()
    ensures { (text said other : List ℕ) (d : ℕ) (a : ShowsAnalysis Basis text said) →
        ShowsList text d other →
        other ≡ basis_text a.loop.names (low_part d a.certificate.basis) }
{}

/// What `full` said of a text, where no part of it is too long, `checkfull` of the same text calls complete, unless a number doesn't fit there, memory is wanting,
/// or a file, which may be too long, or the sink fails.
pub fn full_certificates_are_called_complete()
    ensures { (text said : List ℕ) (budget : ℕ) (m : Journal)
        (shows : ShowsFull text said) → full_causes.HasFinished text budget m →
        checkfull.IsShort shows.loop shows.certificate →
        (request : Request) (call : Call) → ChecksFull request call →
        call.files.before.told request.file ≡ Some text →
        call.files.before.told request.certificate ≡ Some said →
        (call.status ≡ Status.Yes) ⊎ ((call.status ≡ Status.Wide) ⊎ IsExcused call.status) }
{}

/// Where `counter` shows a run, `member` never says yes of the same loop and equation. Where `member` says no, not all lengths
/// are without a word that counters: so a run is found from some length on, though none is told within which there is one.
pub fn counter_runs_are_of_equations_that_do_not_hold()
    ensures never_yes { (text equation said other : List ℕ) (n : ℕ)
        → ShowsCounterRun text equation n said → ShowsYes text equation other → ⊥ }
    ensures never_none { (text equation said : List ℕ) (l : Program (Expr ℕ)) (e : Expr ℕ)
        → ShowsNo text equation said → IsQuestion text equation l e
        → ((n : ℕ) (w : List ℕ) → length w ≤ n → HoldsAfter l e w) → ⊥ }
{}

/// Where `member`, and `decide` or `prove`, both answer of the same loop and equation, both say yes or both say no.
pub fn questions_have_one_answer()
    ensures yes { (evidence : Evidence) (text equation said other : List ℕ)
        → Shows text equation evidence said → ShowsNo text equation other → ⊥ }
    ensures no { (text equation said other : List ℕ)
        → ShowsCounter text equation said → ShowsYes text equation other → ⊥ }
{}
