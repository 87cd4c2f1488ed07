// The lines of a script, read as they come.
ghost use Rattle.std.specs.Prelude.{◌≡◌, ◌≤◌, IfOk, drop, length};
ghost use Rattle.std.specs.Io.BufRead.{strip_last};
ghost use Rattle.stage.specs.Lines.{EndedLines, FrontOf, TakesLine, TakesNext, passes_first};

use hexadecimal::length_to;
use script::COMMENT;
use std::alloc::Global;
use std::io;
use std::io::{BufRead, ErrorKind, Write};

const LINE_FEED: u8 = b'\n';

// Takes the line feed off the end of a line that has one.
fn strip(line: &mut Vec<u8>)
    ensures { line.new.items ≡ strip_last 10 line.old.items }
{
    if line.last() == Some(&LINE_FEED) {
        line.pop();
    }
}

// Whether a text begins with a line that is passed over, which its first byte tells.
#[tactic(auto, using(crate::proofs::Reading::passes_by_first))]
fn passes_first(text: &[u8]) -> bool
    ensures { result ≡ passes_first text.now }
{
    match text {
        [first, ..] => *first == LINE_FEED || *first == COMMENT,
        [] => false,
    }
}

// How many bytes, and how many lines, a text begins with that are passed over. A line that is not ended may go on, and
// is not among them.
fn passed_ahead(text: &[u8]) -> (usize, usize)
    ensures within { result.0 ≤ length text.now }
    ensures lines { EndedLines result.1 text.now (drop result.0 text.now) }
{
    let mut left = text;
    let mut lines = 0;
    while passes_first(left) {
        let length = length_to(left, LINE_FEED);
        if length == left.len() {
            break;
        }
        left = &left[length + 1..];
        lines += 1;
    }
    (text.len() - left.len(), lines)
}

// What was found at the front of a script.
#[derive(Clone, Copy, PartialEq, Eq, Debug)]
enum Front {
    // so many lines that are passed over, and were taken off
    Passed(usize),
    // what is still to be read
    Unread,
    // no byte any more
    End,
}

// Takes off a reader the lines that stand first and are passed over, as far as they have come, or one that has not
// come whole.
fn pass_over<R: BufRead>(reader: &mut R) -> io::Result<Front>
    ensures { IfOk result (FrontOf (R.remaining reader.old) (R.remaining reader.new)) }
{
    let bytes = match reader.fill_buf() {
        Ok(bytes) => bytes,
        // whoever reads tries again
        Err(error) if error.kind() == ErrorKind::Interrupted => return Ok(Front::Unread),
        Err(error) => return Err(error),
    };
    if bytes.is_empty() {
        return Ok(Front::End);
    }
    if !passes_first(bytes) {
        return Ok(Front::Unread);
    }
    let (length, lines) = passed_ahead(bytes);
    if lines == 0 {
        reader.skip_until(LINE_FEED)?;
        return Ok(Front::Passed(1));
    }
    reader.consume(length);
    Ok(Front::Passed(lines))
}

/// What came next in a script.
#[derive(Clone, Copy, PartialEq, Eq, Debug)]
pub(crate) enum Next {
    /// A line that was read. It may say nothing still.
    Line,
    /// Empty lines and comments, which say nothing and were passed over.
    Passed,
    /// No line any more.
    End,
}

/// A script that is read line by line.
#[derive(Drop)]
pub(crate) struct Lines<R> {
    reader: R,
    heap: Global,
    // whether each line is printed as it is read
    echo: bool,
    // how many lines were read
    count: u64,
}

impl<R: BufRead> Lines<R> {
    pub(crate) fn new(heap: Global, reader: R, echo: bool) -> Lines<R> {
        Lines {
            reader,
            heap,
            echo,
            count: 0,
        }
    }

    /// The number of the line that was read last; the first is 1.
    pub(crate) fn number(&self) -> u64 {
        self.count
    }

    /// An empty line to read into.
    pub(crate) fn blank(&self) -> Vec<u8> {
        Vec::new(self.heap)
    }

    /// The memory that slips and outcomes are kept in.
    pub(crate) fn heap(&self) -> Global {
        self.heap
    }

    // Takes the next line off the reader.
    fn take(&mut self, line: &mut Vec<u8>) -> io::Result<bool>
        ensures { IfOk result (λ there. TakesLine (R.remaining self.old.reader) (R.remaining self.new.reader) there line.new.items) }
    {
        line.clear();
        if self.reader.read_until(LINE_FEED, line)? == 0 {
            return Ok(false);
        }
        strip(line);
        self.count = self.count.saturating_add(1);
        Ok(true)
    }

    // Prints a line with its number, whatever its bytes, if lines are to be printed.
    fn print(&self, rt: &impl Print, line: &[u8]) -> io::Result<()> {
        if self.echo {
            let number = self.count;
            print!(rt; "{number} ")?;
            io::writer(rt).write_all(line)?;
            rt.println("")?;
        }
        Ok(())
    }

    // Reads the next line, without its line feed, in place of what `line` held, and tells whether there was one.
    fn read(&mut self, rt: &impl Print, line: &mut Vec<u8>) -> io::Result<bool>
        ensures { IfOk result (λ there. TakesLine (R.remaining self.old.reader) (R.remaining self.new.reader) there line.new.items) }
    {
        if !self.take(line)? {
            return Ok(false);
        }
        self.print(rt, line.as_slice())?;
        Ok(true)
    }

    // Takes the lines off that come next and are passed over. Where lines are printed, each of them is to be read.
    fn pass(&mut self) -> io::Result<Front>
        ensures { IfOk result (FrontOf (R.remaining self.old.reader) (R.remaining self.new.reader)) }
    {
        if self.echo {
            return Ok(Front::Unread);
        }
        pass_over(&mut self.reader)
    }

    /// Takes what comes next. A line is read, without its line feed, in place of what `line` held.
    pub(crate) fn next(&mut self, rt: &impl Print, line: &mut Vec<u8>) -> io::Result<Next>
        ensures { IfOk result (λ next. TakesNext (R.remaining self.old.reader) (R.remaining self.new.reader) next line.new.items) }
    {
        match self.pass()? {
            Front::Passed(lines) => {
                self.count = self.count.saturating_add(lines as u64);
                Ok(Next::Passed)
            }
            Front::Unread => Ok(if self.read(rt, line)? {
                Next::Line
            } else {
                Next::End
            }),
            Front::End => Ok(Next::End),
        }
    }
}
