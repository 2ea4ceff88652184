// The names that literals are made with.
ghost use Rattle.std.specs.Prelude.{◌≡◌, [], ◌∷◌, Some};
ghost use Rattle.std.specs.Option.{IfSome};
ghost use Rattle.rules_data.specs.values.Literals.{word_of, word_of_name};
ghost use Rattle.mich_data.specs.View.{word};

use mich_base::{Primitive, Text, primitive_of_name};

// A name that literals are made with.
#[derive(Clone, Copy, Debug)]
pub(crate) enum Word {
    Unit,
    True,
    False,
    None,
    Some,
    Left,
    Right,
    Pair,
    Entry,
    Recursive,
    Other,
}

// What a name makes as a literal.
#[tactic(auto, unfolding(rules_data::specs::values::Literals::word_of_name))]
pub(crate) fn word_of_name(name: &Text) -> Word
    ensures { word result ≡ word_of_name name.now }
{
    if let Some(word) = frequent_word(name.as_slice()) {
        return word;
    }
    match primitive_of_name(name) {
        Some(primitive) => word_of(primitive),
        None => Word::Other,
    }
}

// The same of the names that most literals have, which have four letters, without a search among all primitives.
fn frequent_word(name: &[u8]) -> Option<Word>
    ensures { IfSome result (λ w. word w ≡ word_of_name name.now) }
{
    match name {
        [a, b, c, d] => word_of_four(*a, *b, *c, *d),
        _ => None,
    }
}

#[tactic(auto, using(crate::proofs::Frequent::true_is, crate::proofs::Frequent::unit_is, crate::proofs::Frequent::none_is, crate::proofs::Frequent::some_is, crate::proofs::Frequent::left_is, crate::proofs::Frequent::pair_is))]
fn word_of_four(a: u8, b: u8, c: u8, d: u8) -> Option<Word>
    ensures { IfSome result (λ w. word w ≡ word_of_name (a ∷ b ∷ c ∷ d ∷ [])) }
{
    match (a, b, c, d) {
        (b'T', b'r', b'u', b'e') => Some(Word::True),
        (b'U', b'n', b'i', b't') => Some(Word::Unit),
        (b'N', b'o', b'n', b'e') => Some(Word::None),
        (b'S', b'o', b'm', b'e') => Some(Word::Some),
        (b'L', b'e', b'f', b't') => Some(Word::Left),
        (b'P', b'a', b'i', b'r') => Some(Word::Pair),
        _ => None,
    }
}

fn word_of(primitive: Primitive) -> Word
    ensures { word result ≡ word_of (Some primitive) }
{
    match primitive {
        Primitive::DataUnit => Word::Unit,
        Primitive::DataTrue => Word::True,
        Primitive::DataFalse => Word::False,
        Primitive::DataNone => Word::None,
        Primitive::DataSome => Word::Some,
        Primitive::DataLeft => Word::Left,
        Primitive::DataRight => Word::Right,
        Primitive::DataPair => Word::Pair,
        Primitive::DataElt => Word::Entry,
        Primitive::DataLambdaRec => Word::Recursive,
        _ => Word::Other,
    }
}
