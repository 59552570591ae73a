//! The laws of texts of programs: what is read is what the grammar says, and what is refused is refused for its first fault, over all texts of the
//! grammar.

ghost use Rattle.std.specs.Prelude.{◌≡◌, ◌↔◌, ℕ, ◌<◌, ◌≤◌, List, length, Option, Ok, Err};
ghost use Rattle.loops.specs.Program.{Expr};
ghost use Rattle.grammars.specs.Grammar.{Placed};
ghost use Rattle.grammars.specs.FirstFault.{IsFirstFault};
ghost use Rattle.grammars.specs.Spelled.{IsRead, spelled_marks};
ghost use Rattle.poly_text.specs.Reasons.{Reason, Fault};
ghost use Rattle.program_model.specs.Limits.{most_names};
ghost use Rattle.program_model.specs.Names.{HasNoUnknown};
ghost use Rattle.program_model.specs.Program.{Program};
ghost use Rattle.program_model.specs.WellFormed.{IsBlock};
ghost use Rattle.program_text.specs.Lexemes.{Lexeme, tokens};
ghost use Rattle.program_text.specs.Programs.{ProgramState, program_language, whole_program, nothing};
ghost use Rattle.program_text.specs.ProgramReader.{program_in, fault_at, text_of};

/// Bytes are read as a program exactly where their tokens are a text of the grammar, none of them at fault, that says it.
pub fn programs_are_read()
    ensures { (bytes : List ℕ) (program : Program (Expr ℕ)) → (text_of bytes ≡ Ok program)
        ↔ ((s : ProgramState) × IsRead program_language whole_program nothing (tokens bytes) s
        × (program_in bytes s ≡ program)) }
{}

/// Bytes are refused with a fault exactly where it is that of their first token at fault, over the texts that bytes spell: some text begins with the
/// lexemes before, none of which is at fault there, and the token itself continues these to no text, or is at fault in some text that begins with
/// all of them.
pub fn first_faults_are_answered()
    ensures { (bytes : List ℕ) (f : Fault) → (text_of bytes ≡ Err f)
        ↔ ((x : Placed Lexeme) × (why : Option Reason)
        × IsFirstFault (spelled_marks program_language whole_program nothing tokens)
        (tokens bytes) x why × (fault_at x why ≡ f)) }
{}

/// What is read has 1 to 16 names, none of which is that of an unknown, and its statements are well formed.
pub fn programs_are_well_formed()
    ensures some_name { (bytes : List ℕ) (p : Program (Expr ℕ)) →
        text_of bytes ≡ Ok p → 0 < length p.names }
    ensures few_names { (bytes : List ℕ) (p : Program (Expr ℕ)) →
        text_of bytes ≡ Ok p → length p.names ≤ most_names }
    ensures no_unknown { (bytes : List ℕ) (p : Program (Expr ℕ)) →
        text_of bytes ≡ Ok p → HasNoUnknown p.names }
    ensures well_formed { (bytes : List ℕ) (p : Program (Expr ℕ)) →
        text_of bytes ≡ Ok p → IsBlock (length p.names) p.statements }
{}
