//! The laws of texts of sequences: what is read is what the grammar says, and what is refused is refused for its first fault, over all texts of the grammar.

ghost use Rattle.std.specs.Prelude.{◌≡◌, ◌↔◌, ℕ, List, Option, Ok, Err};
ghost use Rattle.loops.specs.Program.{Expr};
ghost use Rattle.grammars.specs.Grammar.{Placed};
ghost use Rattle.grammars.specs.FirstFault.{IsFirstFault};
ghost use Rattle.grammars.specs.Spelled.{IsRead, spelled_marks};
ghost use Rattle.poly_text.specs.Lexemes.{Lexeme, tokens};
ghost use Rattle.poly_text.specs.Reasons.{Reason, Fault};
ghost use Rattle.loops.specs.Sequences.{Sequence};
ghost use Rattle.loop_text.specs.Seqs.{SeqState, seq_language, whole_seqs, nothing};
ghost use Rattle.loop_text.specs.SeqReader.{sequences_in, fault_at, sequences_of};

/// Bytes are read as sequences exactly where their tokens are a text of the grammar, none of them at fault, that says them.
pub fn sequences_are_read()
    ensures { (bytes : List ℕ) (qs : List (Sequence (Expr ℕ))) → (sequences_of bytes ≡ Ok qs)
        ↔ ((s : SeqState) × IsRead seq_language whole_seqs nothing (tokens bytes) s
        × (sequences_in s ≡ qs)) }
{}

/// Bytes are refused with a fault exactly where it is that of their first token at fault, over the texts that bytes spell.
pub fn first_faults_are_answered()
    ensures { (bytes : List ℕ) (f : Fault) → (sequences_of bytes ≡ Err f)
        ↔ ((x : Placed Lexeme) × (why : Option Reason)
        × IsFirstFault (spelled_marks seq_language whole_seqs nothing tokens) (tokens bytes) x why
        × (fault_at x why ≡ f)) }
{}
