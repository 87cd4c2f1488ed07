// A list of actors, as a script writes it, in fixed memory.
ghost use Rattle.std.specs.Prelude.{◌≡◌, [], ◌∷◌, ◌++◌, take};
ghost use Rattle.script.specs.Actors.{actors_in, actors_of};
ghost use Rattle.script.specs.Lists.{list_read};

use crate::part::Part;
use crate::place::Place;
use crate::reason::Reason;
use crate::word::cut;

const COMMA: u8 = b',';

/// A list of actors. There is room for one more than any call takes, so that a list that is longer is refused for its length.
// The first `count` entries are those of the list. Zeros stand behind them, so that two lists are equal where their entries are.
#[derive(Clone, Copy, PartialEq, Eq, Debug)]
pub struct Actors {
    pub(crate) entries: [u16; 257],
    pub(crate) count: usize,
}

// The first entries, or all where there are fewer.
fn front(entries: &[u16], count: usize) -> &[u16]
    ensures { result.now ≡ take count entries.now }
{
    if count < entries.len() {
        &entries[..count]
    } else {
        entries
    }
}

impl Actors {
    /// The entries of the list, the first 257 at most.
    pub fn entries(&self) -> &[u16]
        ensures { result.now ≡ actors_in self.now }
    {
        front(&self.entries, self.count)
    }
}

// Keeps an actor, where there is room.
fn keep(list: &mut Actors, actor: u16)
    requires { list.old ≡ actors_of (actors_in list.old) }
    ensures { list.new ≡ actors_of (take 257 (actors_in list.old ++ actor ∷ [])) }
{
    if list.count < list.entries.len() {
        list.entries[list.count] = actor;
        list.count += 1;
    }
}

impl Part for Actors {
    ghost reads = { list_read };

    // The list that a text writes, if every entry is a number; else the first that is none is told.
    fn read(text: &[u8], place: Place) -> Result<Self, Reason<'_>> {
        let mut list = Actors {
            entries: [0; 257],
            count: 0,
        };
        let mut left = text;
        // by `cut`: a `for` over `split` that may leave early needs an invariant on the iterator's state in place of one on the rest
        while let Some((entry, rest)) = cut(left, COMMA) {
            keep(&mut list, u16::read(entry, place)?);
            left = rest;
        }
        keep(&mut list, u16::read(left, place)?);
        Ok(list)
    }
}
