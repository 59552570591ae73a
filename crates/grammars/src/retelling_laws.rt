//! The law of a language whose faults are told in other words.

ghost use Rattle.std.specs.Prelude.{◌≡◌, List};
ghost use Rattle.grammars.specs.Grammar.{Placed, State, Grammar, Language};
ghost use Rattle.grammars.specs.Reader.{parsed};
ghost use Rattle.grammars.specs.Retold.{Telling, retold, retold_language, retold_answer};

/// Reading by a language whose faults are told in another way is reading by the language itself, with the fault so told.
pub fn faults_are_retold<N, K, Y, C, V, R>()
    ensures { (r : Telling Y R) (L : Language N K Y C V R) (g : Grammar N K Y C V R) (s : State C V)
        (ts : List (Placed Y))
        → parsed (retold_language r L) (retold r g) s ts ≡ retold_answer r (parsed L g s ts) }
{}
