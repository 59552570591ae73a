//! The laws of texts of sums and of equations: what is read is what the grammar says, and what is refused is refused for its first fault, over all texts
//! that bytes spell.

ghost use Rattle.std.specs.Prelude.{◌≡◌, ◌↔◌, ℕ, List, [], ◌∷◌, Option};
ghost use Rattle.grammars.specs.Grammar.{Placed, rule};
ghost use Rattle.grammars.specs.Reader.{read_whole, parsed, reads, refused};
ghost use Rattle.grammars.specs.FirstFault.{IsFirstFault};
ghost use Rattle.grammars.specs.Spelled.{IsRead, spelled_marks};
ghost use Rattle.grammars.specs.Parts.{IsReadBefore, IsPartFault};
ghost use Rattle.poly_text.specs.Lexemes.{Lexeme, tokens};
ghost use Rattle.poly_text.specs.Reasons.{Reason};
ghost use Rattle.poly_text.specs.Sums.{SumState, a_sum, sum_language, whole_sum, whole_equation};

/// Bytes are read as a sum exactly where their tokens are a text of the grammar, none of them at fault, that leads to what is read; and they
/// are refused for a token exactly where it is the first at fault.
pub fn sums_are_read()
    ensures read { (bytes : List ℕ) (s t : SumState)
        → (read_whole sum_language whole_sum s (tokens bytes) ≡ reads t [])
        ↔ IsRead sum_language whole_sum s (tokens bytes) t }
    ensures fault { (bytes : List ℕ) (s : SumState) (x : Placed Lexeme) (why : Option Reason)
        → (read_whole sum_language whole_sum s (tokens bytes) ≡ refused x why)
        ↔ IsFirstFault (spelled_marks sum_language whole_sum s tokens) (tokens bytes) x why }
{}

/// A sum in front of other tokens is read exactly where the tokens before the rest are a sum of the grammar, none of them at fault, and the first
/// of the rest can't continue it to any sum; it is refused exactly for the first token at fault.
pub fn sums_in_texts_are_read()
    ensures read { (s t : SumState) (ts : List (Placed Lexeme)) (x : Placed Lexeme)
        (after : List (Placed Lexeme))
        → (parsed sum_language (rule a_sum) s ts ≡ reads t (x ∷ after))
        ↔ IsReadBefore sum_language (rule a_sum ∷ []) s (λ (own : List (Placed Lexeme)). own) ts t
        x after }
    ensures fault { (s : SumState) (ts : List (Placed Lexeme)) (x : Placed Lexeme)
        (why : Option Reason)
        → (parsed sum_language (rule a_sum) s ts ≡ refused x why)
        ↔ IsPartFault sum_language (rule a_sum ∷ []) s (λ (own : List (Placed Lexeme)). own) ts x
        why }
{}

/// The same of equations.
pub fn equations_are_read()
    ensures read { (bytes : List ℕ) (s t : SumState)
        → (read_whole sum_language whole_equation s (tokens bytes) ≡ reads t [])
        ↔ IsRead sum_language whole_equation s (tokens bytes) t }
    ensures fault { (bytes : List ℕ) (s : SumState) (x : Placed Lexeme) (why : Option Reason)
        → (read_whole sum_language whole_equation s (tokens bytes) ≡ refused x why)
        ↔ IsFirstFault (spelled_marks sum_language whole_equation s tokens) (tokens bytes) x why }
{}
