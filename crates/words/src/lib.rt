// Whether two words are the same, byte for byte: how a program knows its option.
#![tactic(auto)]

ghost use Rattle.words.specs.Promises.{Compared};
ghost use Rattle.std.specs.Prelude.{◌≡◌};

#[tactic(auto, using(crate::proofs::Laws::pointwise_same))]
pub fn is_word(word: &[u8], other: &[u8]) -> bool
    ensures { Compared (word.now, other.now) result }
{
    word == other
}
