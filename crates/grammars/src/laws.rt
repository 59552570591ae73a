//! The laws of texts, readers and first faults, one function each. They are of every language whose next token tells which way to go.

ghost use Rattle.std.specs.Prelude.{◌≡◌, ◌↔◌, true, List, [], ◌∷◌, Option};
ghost use Rattle.grammars.specs.Grammar.{Placed, State, Grammar, Language};
ghost use Rattle.grammars.specs.Derivation.{Text};
ghost use Rattle.grammars.specs.Reader.{read, read_whole, parsed, reads, refused};
ghost use Rattle.grammars.specs.Checked.{are_fit, IsChecked, IsWhole};
ghost use Rattle.grammars.specs.FirstFault.{symbols_in, lexemes_of, bare_marks, IsFirstFault};
ghost use Rattle.grammars.specs.Spelled.{IsRead, AreSpelled, spelled_marks};
ghost use Rattle.grammars.specs.Parts.{BeginsExactly, IsReadBefore, IsPartFault};
ghost use Rattle.grammars.specs.Embedded.{Embedding, lift, part, IsEmbedded, answer_in};

/// Tokens are read to a state exactly where they are a text, none of them at fault, that leads to it.
pub fn texts_are_read<N, K, Y, C, V, R>()
    ensures { (L : Language N K Y C V R) → IsChecked L
        → (gs : List (Grammar N K Y C V R)) → IsWhole L gs
        → (s t : State C V) (ts : List (Placed Y))
        → (read_whole L gs s ts ≡ reads t []) ↔ IsRead L gs s ts t }
{}

/// Tokens are refused for one of them exactly where it is the first at fault, over the texts that are spelled: some of these begins with the
/// lexemes before, none of which is at fault there, and the token's lexeme continues these to none, or is at fault in one that begins with all of them.
pub fn first_faults_are_answered<N, K, Y, C, V, R, B>()
    ensures { (L : Language N K Y C V R) → IsChecked L
        → (gs : List (Grammar N K Y C V R)) → IsWhole L gs
        → (s : State C V) (tokens : B → List (Placed Y)) → AreSpelled L gs s tokens
        → (ts : List (Placed Y)) (x : Placed Y) (why : Option R)
        → (read_whole L gs s ts ≡ refused x why)
        ↔ IsFirstFault (spelled_marks L gs s tokens) ts x why }
{}

/// In front of other tokens, those before one of them are read to a state exactly where they are a text, none of them at fault, that leads to it, and
/// the one continues them to none; and tokens are refused for one exactly where it is the first at fault and, if it can't stand there, those before it
/// are no text.
pub fn parts_are_read<N, K, Y, C, V, R, B>()
    ensures { (L : Language N K Y C V R) → IsChecked L → BeginsExactly L
        → (gs : List (Grammar N K Y C V R)) → are_fit L gs [] ≡ true
        → (s : State C V) (tokens : B → List (Placed Y)) → AreSpelled L gs s tokens
        → (ts : List (Placed Y)) (x : Placed Y)
        → ((t : State C V) (after : List (Placed Y))
        → (read L gs s ts ≡ reads t (x ∷ after)) ↔ IsReadBefore L gs s tokens ts t x after)
        × ((why : Option R) → (read L gs s ts ≡ refused x why)
        ↔ IsPartFault L gs s tokens ts x why) }
{}

/// A text stays one, with the same faults, where the offsets of its tokens are others.
pub fn faults_look_at_no_offset<N, K, Y, C, V, R>()
    ensures { (L : Language N K Y C V R) (gs : List (Grammar N K Y C V R)) (s : State C V)
        (text : Text L gs s) (ts : List (Placed Y))
        → lexemes_of ts ≡ lexemes_of (symbols_in text.marks)
        → ((other : Text L gs s) × (symbols_in other.marks ≡ ts)
        × (bare_marks other.marks ≡ bare_marks text.marks)) }
{}

/// Reading by a grammar of a language that is embedded in another one is reading by that language on its part of the state, with the part put back.
pub fn embedded_grammars_read_their_part<M, N, K, Y, C, D, V, W, R>()
    ensures { (E : Embedding M N C D V W) (S : Language M K Y D W R) (L : Language N K Y C V R)
        → IsEmbedded E S L
        → (g : Grammar M K Y D W R) (s : State C V) (ts : List (Placed Y))
        → parsed L (lift E g) s ts ≡ answer_in E (parsed S g (part E s) ts) s }
{}
