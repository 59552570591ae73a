//! The laws of texts: what is read is what the grammar says, and what is refused is refused for its first fault, over all texts of the grammar.

ghost use Rattle.std.specs.Prelude.{◌≡◌, ◌↔◌, ℕ, ◌<◌, ◌≤◌, List, length, Option, Ok, Err};
ghost use Rattle.loops.specs.Program.{Expr, Program};
ghost use Rattle.loops.specs.WellFormed.{IsWellFormed};
ghost use Rattle.loops.specs.Limits.{most_names, most_branches, IsWithinLimits};
ghost use Rattle.grammars.specs.Grammar.{Placed};
ghost use Rattle.grammars.specs.FirstFault.{IsFirstFault};
ghost use Rattle.grammars.specs.Spelled.{IsRead, spelled_marks};
ghost use Rattle.poly_text.specs.Lexemes.{Lexeme, tokens};
ghost use Rattle.poly_text.specs.Reasons.{Reason, Fault};
ghost use Rattle.loop_text.specs.Loops.{LoopState, loop_language, whole_loop, nothing};
ghost use Rattle.loop_text.specs.LoopReader.{program_in, fault_at, loop_of};

/// Bytes are read as a program exactly where their tokens are a text of the grammar, none of them at fault, that says it.
pub fn loops_are_read()
    ensures { (bytes : List ℕ) (program : Program (Expr ℕ)) → (loop_of bytes ≡ Ok program)
        ↔ ((s : LoopState) × IsRead loop_language whole_loop nothing (tokens bytes) s
        × (program_in s ≡ program)) }
{}

/// Bytes are refused with a fault exactly where it is that of their first token at fault, over the texts that bytes spell: some text begins with the
/// lexemes before, none of which is at fault there, and the token itself continues these to no text, or is at fault in some text that begins with
/// all of them.
pub fn first_faults_are_answered()
    ensures { (bytes : List ℕ) (f : Fault) → (loop_of bytes ≡ Err f)
        ↔ ((x : Placed Lexeme) × (why : Option Reason)
        × IsFirstFault (spelled_marks loop_language whole_loop nothing tokens) (tokens bytes) x why
        × (fault_at x why ≡ f)) }
{}

/// What is read has a name at least, and at most as many names and branches as the limits say; it sets and uses declared names alone, and computes a
/// start with what it doesn't set.
pub fn loops_are_well_formed()
    ensures formed { (bytes : List ℕ) (l : Program (Expr ℕ)) →
        loop_of bytes ≡ Ok l → IsWellFormed l }
    ensures some_name { (bytes : List ℕ) (l : Program (Expr ℕ)) →
        loop_of bytes ≡ Ok l → 0 < length l.names }
    ensures few_names { (bytes : List ℕ) (l : Program (Expr ℕ)) →
        loop_of bytes ≡ Ok l → length l.names ≤ most_names }
    ensures few_branches { (bytes : List ℕ) (l : Program (Expr ℕ)) →
        loop_of bytes ≡ Ok l → length l.branches ≤ most_branches }
{}

/// What is read is within the limits of texts: on names, branches, statements, operators and exponents.
pub fn loops_are_within_limits()
    ensures { (bytes : List ℕ) (l : Program (Expr ℕ)) → loop_of bytes ≡ Ok l → IsWithinLimits l }
{}
