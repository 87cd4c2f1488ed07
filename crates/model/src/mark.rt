// Whether a switch has been told of an item.
ghost use Rattle.std.specs.Prelude.{◌≡◌, Some};
ghost use Rattle.model.specs.Marks.{is_outstanding, mark_name, moved};

use std::fmt;

/// How a switch stands to an item, an actor or its control word.
#[derive(Clone, Copy, PartialEq, Eq, Debug, Default)]
pub enum Mark {
    /// The switch has it.
    #[default]
    Settled,
    /// The switch must be told.
    Due,
    /// The switch was told, and its answer has not come.
    UnderWay,
}

/// What can happen to an item.
#[derive(Clone, Copy, PartialEq, Eq, Debug)]
pub enum Change {
    /// A value or the control word was set, or the switch asked for everything: the item is due.
    Changed,
    /// A packet with everything outstanding was composed: what is due is under way.
    Composed,
    /// The awaited answer came: what is under way is settled. What became due meanwhile stays due.
    Answered,
    /// The packet was withheld: what is under way is due again.
    Withheld,
}

impl Mark {
    /// Moves the mark in place by what happened, and leaves it where that does not concern it.
    pub fn note(&mut self, change: Change)
        ensures { self.new ≡ moved self.old change }
    {
        *self = match (*self, change) {
            (_, Change::Changed) => Mark::Due,
            (Mark::Due, Change::Composed) => Mark::UnderWay,
            (Mark::UnderWay, Change::Answered) => Mark::Settled,
            (Mark::UnderWay, Change::Withheld) => Mark::Due,
            (same, _) => same,
        };
    }

    /// Whether the item is due or under way: the switch must be told of it, or has not answered yet.
    pub fn is_outstanding(self) -> bool
        ensures { result ≡ is_outstanding self }
    {
        matches!(self, Mark::Due | Mark::UnderWay)
    }
}

impl fmt::Display for Mark {
    ghost output = { λ m. Some (mark_name m) };

    fn fmt<W: fmt::Write>(&self, f: &mut fmt::Formatter<W>) -> fmt::Result {
        f.write_str(match self {
            Mark::Settled => "settled",
            Mark::Due => "due",
            Mark::UnderWay => "under way",
        })
    }
}
