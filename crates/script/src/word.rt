// A text cut at a separator.
ghost use Rattle.std.specs.Prelude.{◌≡◌, ◌<◌, [], ◌∷◌, length, IfSome, Some, None, MatchOption};
ghost use Rattle.script.specs.Lists.{parts_of};
ghost use Rattle.script.specs.Words.{cut_at};

// What stands before the first separator and what stands after it, where there is one.
pub(crate) fn cut(text: &[u8], separator: u8) -> Option<(&[u8], &[u8])>
    ensures answer { MatchOption result (cut_at separator text.now ≡ None) (λ p. cut_at separator text.now ≡ Some (p.0.now, p.1.now)) }
    ensures parts { MatchOption result (parts_of separator text.now ≡ text.now ∷ []) (λ p. parts_of separator text.now ≡ p.0.now ∷ parts_of separator p.1.now) }
    ensures shorter { IfSome result (λ p. length p.1.now < length text.now) }
{
    let end = hexadecimal::length_to(text, separator);
    Some((&text[..end], text.get(end + 1..)?))
}
