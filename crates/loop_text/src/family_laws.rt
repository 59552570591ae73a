//! The law that each text of the family is a loop's.
ghost use Rattle.std.specs.Prelude.{◌≡◌, ◌≤◌, ℕ, Ok};
ghost use Rattle.loops.specs.Program.{Expr, Program};
ghost use Rattle.loop_text.specs.LoopReader.{loop_of};
ghost use Rattle.loop_text.specs.Family.{loop_text, most_loops};

/// The text of each loop of the family is read as a loop.
pub fn texts_are_loops()
    ensures { (number : ℕ) → number ≤ most_loops →
        (l : Program (Expr ℕ)) × (loop_of (loop_text number) ≡ Ok l) }
{}
