//! Words of sequence texts.

ghost use Rattle.std.specs.Prelude.{◌≡◌, nat_eq};
ghost use Rattle.std.specs.List.{list_any};
ghost use Rattle.loop_model.specs.Ascii.{underscore};
ghost use Rattle.loop_text.specs.Seqs as spec;

/// Whether it is the first word of a text, which names nothing.
#[tactic(auto, unfolding(crate::specs::Seqs::sequences_word))]
pub fn is_sequences(word: &[u8]) -> bool
    ensures { result ≡ spec.is_sequences word.now }
{
    word == b"sequences".as_slice()
}

/// Whether a byte of the word is `_`.
fn has_underscore(word: &[u8]) -> bool
    ensures { result ≡ list_any (λ c. nat_eq c underscore) word.now }
{
    word.iter().any(|byte| *byte == b'_')
}

/// Whether the word can be the name of a sequence: it has no `_`, and isn't `sequences`.
pub fn is_seqname(word: &[u8]) -> bool
    ensures { result ≡ spec.is_seqname word.now }
{
    !is_sequences(word) && !has_underscore(word)
}
