// The words behind the name of a call: numbers, values, lists and texts, with a space between each two.
ghost use Rattle.std.specs.Prelude.{◌≡◌, ℕ, List, Result};
ghost use Rattle.script.specs.Parts.{one, one_word, two, two_words};
ghost use Rattle.script.specs.Reasons.{Why, made, read_as};
ghost use Rattle.script.specs.declared.place.Place.{Place};

use crate::place::Place;
use crate::reason::Reason;
use crate::verb::Verb;
use crate::word::cut;

pub(crate) const SPACE: u8 = b' ';

// What a word of a call can be read as.
pub(crate) trait Part: Drop {
    ghost reads: { Place → List ℕ → Result Self Why };

    fn read(text: &[u8], place: Place) -> Result<Self, Reason<'_>>
        ensures { read_as result ≡ reads place text.now };
}

// The text itself, if it is one word; else the form of the call is another.
pub(crate) fn one_word(verb: Verb, text: &[u8]) -> Result<&[u8], Reason<'_>>
    ensures { made (λ x. x.now) (read_as result) ≡ one_word verb text.now }
{
    if text.is_empty() || cut(text, SPACE).is_some() {
        return Err(Reason::Form(verb));
    }
    Ok(text)
}

// Two words with a space between them.
pub(crate) fn two_words(verb: Verb, text: &[u8]) -> Result<(&[u8], &[u8]), Reason<'_>>
    ensures { made (λ p. (p.0.now, p.1.now)) (read_as result) ≡ two_words verb text.now }
{
    match cut(text, SPACE) {
        Some((first, second)) => Ok((one_word(verb, first)?, one_word(verb, second)?)),
        None => Err(Reason::Form(verb)),
    }
}

// One word, read in its place.
pub(crate) fn one<A: Part>(verb: Verb, text: &[u8], place: Place) -> Result<A, Reason<'_>>
    ensures { read_as result ≡ one (A.reads place) verb text.now }
{
    A::read(one_word(verb, text)?, place)
}

// Two words, each read in its place.
pub(crate) fn two<A: Part, B: Part>(
    verb: Verb,
    text: &[u8],
    places: (Place, Place),
) -> Result<(A, B), Reason<'_>>
    ensures { read_as result ≡ two (A.reads places.0) (B.reads places.1) verb text.now }
{
    let (first, second) = two_words(verb, text)?;
    Ok((A::read(first, places.0)?, B::read(second, places.1)?))
}
