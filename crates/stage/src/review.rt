// Whether the outcomes of a script were those that it wants.
ghost use Rattle.std.specs.Prelude.{◌≡◌, OnOk, string_bytes};
ghost use Rattle.stage.specs.Reviews.{ends_badly, review_of, told_now, wanted_now};

use crate::outcome::Outcome;
use script::Text;
use std::alloc::Global;
use std::io;

/// What was told so far, and whether all of it was wanted.
#[derive(Drop)]
pub(crate) struct Review {
    heap: Global,
    // what the call before told, until it was asked for
    told: Option<String>,
    // whether that was told of a mistake
    mistaken: bool,
    failed: bool,
}

// Writes a text and a line feed at once.
fn print_line(rt: &impl Print, text: &mut String) -> io::Result<()>
    ensures { OnOk result (string_bytes text.new ≡ string_bytes text.old) }
{
    text.push('\n')?;
    let written = rt.write_all(text.as_bytes());
    text.pop();
    written
}

impl Review {
    pub(crate) fn new(heap: Global) -> Review {
        Review {
            heap,
            told: None,
            mistaken: false,
            failed: false,
        }
    }

    /// Prints an outcome, and keeps it for the line that may want it.
    pub(crate) fn tell(&mut self, rt: &impl Print, outcome: &Outcome<'_>) -> io::Result<()>
        ensures { OnOk result (review_of self.new ≡ told_now outcome.now (review_of self.old)) }
    {
        // the room of the outcome before serves again
        let mut text = self.told.take().unwrap_or(String::new(self.heap));
        text.clear();
        write!(text, "{outcome}")?;
        print_line(rt, &mut text)?;
        self.failed |= self.mistaken;
        self.mistaken = outcome.is_mistake();
        self.told = Some(text);
        Ok(())
    }

    /// Compares what is wanted with what the call before told, and prints both where they differ.
    pub(crate) fn want(&mut self, rt: &impl Print, number: u64, wanted: &[u8]) -> io::Result<()>
        ensures { OnOk result (review_of self.new ≡ wanted_now wanted.now (review_of self.old)) }
    {
        match self.told.take() {
            Some(told) => {
                self.mistaken = false;
                if told.as_bytes() != wanted {
                    self.failed = true;
                    let wanted = Text(wanted);
                    println!(rt; "line {number}: wanted {wanted}, told {told}")?;
                }
                Ok(())
            }
            None => self.tell(rt, &Outcome::Unasked),
        }
    }

    /// Whether an outcome came that was not wanted, or a mistake that nobody wanted.
    pub(crate) fn has_failed(&self) -> bool
        ensures { result ≡ ends_badly (review_of self.now) }
    {
        self.failed || self.mistaken
    }
}
