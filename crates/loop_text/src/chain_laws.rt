//! The laws of texts of loops in sequence: what is read is what the grammar says, and what is refused is refused for its first fault, over
//! all texts of the grammar.

ghost use Rattle.std.specs.Prelude.{◌≡◌, ◌↔◌, ◌≤◌, ℕ, suc, List, [], ◌∷◌, length, Option, Ok, Err};
ghost use Rattle.loops.specs.Program.{Expr, Program};
ghost use Rattle.grammars.specs.Grammar.{Placed};
ghost use Rattle.grammars.specs.FirstFault.{IsFirstFault};
ghost use Rattle.grammars.specs.Spelled.{IsRead, spelled_marks};
ghost use Rattle.poly_text.specs.Lexemes.{Lexeme, tokens};
ghost use Rattle.poly_text.specs.Reasons.{Reason, Fault};
ghost use Rattle.loop_text.specs.LoopReader as reader;
ghost use Rattle.loop_text.specs.LoopReader.{fault_at};
ghost use Rattle.loops.specs.Chain.{Chain, loop_of, loop_at, code_at};
ghost use Rattle.loop_runs.specs.Limits.{most_loops};
ghost use Rattle.loop_runs.specs.Parts.{IsLoop};
ghost use Rattle.loop_text.specs.Chains.{ChainState, chain_language, whole_chain, chain_nothing};
ghost use Rattle.loop_text.specs.ChainReader.{chain_in, chain_of};

/// Bytes are read as a chain exactly where their tokens are a text of the grammar, none of them at fault, that says it.
pub fn chains_are_read()
    ensures { (bytes : List ℕ) (c : Chain (Expr ℕ)) → (chain_of bytes ≡ Ok c)
        ↔ ((s : ChainState) × IsRead chain_language whole_chain chain_nothing (tokens bytes) s
        × (chain_in s ≡ c)) }
{}

/// Bytes are refused with a fault exactly where it is that of their first token at fault, over the texts that bytes spell.
pub fn first_faults_are_answered()
    ensures { (bytes : List ℕ) (f : Fault) → (chain_of bytes ≡ Err f)
        ↔ ((x : Placed Lexeme) × (why : Option Reason)
        × IsFirstFault (spelled_marks chain_language whole_chain chain_nothing tokens)
        (tokens bytes) x why
        × (fault_at x why ≡ f)) }
{}

/// A text of a loop is one of a chain, of this loop alone.
pub fn loops_are_chains()
    ensures { (bytes : List ℕ) (l : Program (Expr ℕ)) → reader.loop_of bytes ≡ Ok l
        → chain_of bytes ≡ Ok (record { first = l; further = [] }) }
{}

/// Each loop of a chain that is read is well formed and within the limits of loops, and so is the code before it, as the one branch of a loop; and there are at most as many as a text may have.
pub fn chains_are_well_formed()
    ensures loops { (bytes : List ℕ) (c : Chain (Expr ℕ)) → chain_of bytes ≡ Ok c
        → (j : ℕ) → j ≤ length c.further → IsLoop (loop_at c j) }
    ensures codes { (bytes : List ℕ) (c : Chain (Expr ℕ)) → chain_of bytes ≡ Ok c
        → (j : ℕ) → suc j ≤ length c.further
        → IsLoop (loop_of c.first (code_at c (suc j) ∷ [])) }
    ensures few { (bytes : List ℕ) (c : Chain (Expr ℕ)) → chain_of bytes ≡ Ok c
        → suc (length c.further) ≤ most_loops }
{}
