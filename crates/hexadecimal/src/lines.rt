// A text taken apart line by line.
ghost use Rattle.std.specs.Prelude.{◌≡◌, ℕ, ◌<◌, ◌≤◌, List, length, MatchOption};
ghost use Rattle.std.specs.Iterator.{at_most};
ghost use Rattle.std.specs.Option.{option_map};
ghost use Rattle.hexadecimal.specs.Lines.{FirstLine, LineByLine, Shorter, TakesLine, length_to, line_of, next_line, rest_of};

use std::marker::Model;

const LINE_FEED: u8 = b'\n';

/// How many bytes stand before the first separator; the whole length where there is none.
pub fn length_to(text: &[u8], separator: u8) -> usize
    ensures answer { result ≡ length_to separator text.now }
    ensures within { result ≤ length text.now }
{
    text.iter()
        .position(|b| *b == separator)
        .unwrap_or(text.len())
}

// The first line of a text that has one, and what follows its line feed.
#[tactic(auto, using(crate::proofs::Fronts::first_at, crate::proofs::Fronts::shorter_since))]
fn cut(text: &[u8]) -> (&[u8], &[u8])
    requires { 0 < length text.now }
    ensures line { result.0.now ≡ line_of text.now }
    ensures rest { result.1.now ≡ rest_of text.now }
    ensures first { FirstLine text.now result.0.now result.1.now }
    ensures shorter { Shorter text.now result.0.now result.1.now }
{
    let end = length_to(text, LINE_FEED);
    if end < text.len() {
        (&text[..end], &text[end + 1..])
    } else {
        (text, &[])
    }
}

/// The first line of a text, without its line feed, and what follows it. Only a line feed ends a line, the last
/// line may lack it, and an empty text has no line.
pub fn next_line(text: &[u8]) -> Option<(&[u8], &[u8])>
    ensures answer { option_map (λ p. (p.0.now, p.1.now)) result ≡ next_line text.now }
    ensures first { MatchOption result (length text.now ≡ 0) (λ p. FirstLine text.now p.0.now p.1.now) }
    ensures shorter { MatchOption result (length text.now ≡ 0) (λ p. Shorter text.now p.0.now p.1.now) }
{
    if text.is_empty() {
        None
    } else {
        Some(cut(text))
    }
}

/// The lines of a text, first to last, as `next_line` takes them off. What a contract sees of it is the text that
/// is left.
#[derive(Clone, Debug, Drop)]
pub struct Lines<'a> {
    left: &'a [u8],
}

impl<'a> Model for Lines<'a> {
    ghost Value = { List ℕ };

    ghost view = { λ lines. lines.left.now };
}

impl<'a> Lines<'a> {
    /// The lines of that text, none of them taken yet.
    #[tactic(auto, using(crate::proofs::Fronts::lines_step))]
    pub fn new(text: &'a [u8]) -> Lines<'a>
        ensures text { result ≡ text.now }
        ensures lines { LineByLine text.now }
    {
        Lines { left: text }
    }

    /// The text behind the lines that were taken so far.
    pub fn rest(&self) -> &'a [u8]
        ensures { result.now ≡ self.now }
    {
        self.left
    }
}

impl<'a> Iterator for Lines<'a> {
    type Item = &'a [u8];

    ghost next_gives = { TakesLine };

    // There are no more lines than bytes.
    ghost remaining = { λ text. at_most (length text) };

    /// Takes the first line off the text that is left. Of an empty text there is none, and it stays empty.
    #[tactic(auto, using(crate::proofs::Fronts::lines_step, crate::proofs::Fronts::lines_none))]
    fn next(&mut self) -> Option<&'a [u8]> {
        let (line, rest) = next_line(self.left)?;
        self.left = rest;
        Some(line)
    }
}
