//! The laws of the headline, one function each.
ghost use Rattle.std.specs.Prelude.{◌≡◌, ◌↔◌, ◌≤◌, List, length, ℕ, Ok};
ghost use Rattle.loops.specs.Certificate as certificates;
ghost use Rattle.loops.specs.Certificate.{IsValid};
ghost use Rattle.cert_form.specs.Form.{cert_in, most_elements};
ghost use Rattle.machines.specs.Journal.{Journal};
ghost use Rattle.analysis_commands.specs.declared.kind.Kind as kinds;
ghost use Rattle.analysis_commands.specs.declared.kind.Kind.TheVariants.{Basis, Certificate};
ghost use Rattle.analysis_commands.specs.Causes.{IsClosed};
ghost use Rattle.analysis_commands.specs.Headline.{HaveSameInvariants, ShowsAnalysis};
ghost use Rattle.analysis_commands.specs.ChainHeadline.{HaveSameChainInvariants, ShowsChain};
ghost use Rattle.analysis_commands.specs.RelationsHeadline.{HaveSameRelations, ShowsRelations};
ghost use Rattle.loops.specs.Sequences.{sequence_names};

/// Two loops over the same variables print equal bases exactly where they have the same invariants.
pub fn equal_bases_are_equal_invariants()
    ensures { (text said other answer : List ℕ)
        (a : ShowsAnalysis Basis text said) (b : ShowsAnalysis Basis other answer)
        → a.loop.names ≡ b.loop.names → (said ≡ answer) ↔ HaveSameInvariants a.loop b.loop }
{}

/// Two chains over the same variables print equal bases exactly where they have as many loops and, up to each of these, the
/// same invariants.
pub fn equal_bases_are_equal_invariants_of_chains()
    ensures { (text said other answer : List ℕ)
        (a : ShowsChain text said) (b : ShowsChain other answer)
        → a.chain.first.names ≡ b.chain.first.names
        → (said ≡ answer) ↔ HaveSameChainInvariants a.chain b.chain }
{}

/// Sequences with the same names print equal bases exactly where they have the same relations.
pub fn equal_bases_are_equal_relations()
    ensures { (text said other answer : List ℕ)
        (a : ShowsRelations text said) (b : ShowsRelations other answer)
        → sequence_names a.sequences ≡ sequence_names b.sequences
        → (said ≡ answer) ↔ HaveSameRelations a.sequences b.sequences }
{}

/// What `basis` and `cert` print is a function of the loop: with the cofactors of the divisions that close its analysis there is
/// one certificate.
pub fn certificates_are_one()
    ensures { (kind : kinds.Kind) (text said other : List ℕ) (m k : Journal)
        → IsClosed kind text m said → IsClosed kind text k other → said ≡ other }
{}

/// What `cert` prints, where it has at most as many polynomials as a file may have, is read as a certificate of the loop
/// whose identities hold: one that `check` calls valid.
pub fn printed_certificates_are_valid()
    ensures { (text said : List ℕ) (a : ShowsAnalysis Certificate text said)
        → length a.certificate.basis ≤ most_elements
        → (listed : certificates.Certificate)
        × (cert_in a.loop.names (length a.loop.branches) said ≡ Ok listed)
        × IsValid a.loop listed }
{}
