// A stage for a hub: a script of calls comes in, one a line, and what each call told goes out.
#![tactic(auto)]

ghost use Rattle.std.specs.Prelude.{OnOk};
ghost use Rattle.hub.specs.Memory.{hub_model};
ghost use Rattle.stage.specs.Calls.{Makes, MakesScript};
ghost use Rattle.stage.specs.Reviews.{review_of};

mod arguments;
mod call;
mod desk;
mod lines;
mod outcome;
mod review;
mod slip;
#[cfg(test)]
mod tests;

use arguments::command;
use desk::Desk;
use fault::Fault;
use hub::Hub;
use image::Image;
use lines::{Lines, Next};
use model::Site;
use outcome::{Answer, Outcome, Told};
use packet::PAYLOAD_MOST;
use review::Review;
use script::{Call, Line, Store};
use std::fs::File;
use std::io::{BufRead, BufReader, ErrorKind};
use std::process::ExitCode;
use std::{env, io};
use store::{ActorStore, Table};

// Makes what a line says. A packet is composed into the buffer.
fn make<S: ActorStore>(
    rt: &impl Print,
    desk: &mut Desk<S>,
    review: &mut Review,
    buf: &mut [u8; PAYLOAD_MOST],
    number: u64,
    line: &[u8],
) -> io::Result<()>
    ensures { OnOk result (Makes line.now (hub_model S.meaning desk.old.hub) (review_of review.old) (hub_model S.meaning desk.new.hub) (review_of review.new)) }
{
    // by reference, since a call with a list of actors is large
    let said = script::read(line);
    match &said {
        Line::Passed => Ok(()),
        Line::Wanted(outcome) => review.want(rt, number, outcome),
        Line::Call(call) => {
            let answer = desk.make(call, buf)?;
            review.tell(rt, &Outcome::Made(answer))
        }
        Line::Unknown(reason) => review.tell(rt, &Outcome::Unknown(*reason)),
    }
}

// Makes what the lines of a script say, as they come, up to its end.
fn make_all<S: ActorStore, R: BufRead>(
    rt: &impl Print,
    desk: &mut Desk<S>,
    review: &mut Review,
    script: &mut Lines<R>,
) -> io::Result<()>
    ensures { OnOk result (MakesScript (R.remaining script.old.reader) (hub_model S.meaning desk.old.hub) (review_of review.old) (hub_model S.meaning desk.new.hub) (review_of review.new)) }
{
    let mut line = script.blank();
    let mut buf = [0; PAYLOAD_MOST];
    for _ in 0..u64::MAX {
        match script.next(rt, &mut line)? {
            Next::Line => make(rt, desk, review, &mut buf, script.number(), line.as_slice())?,
            Next::Passed => {}
            Next::End => return Ok(()),
        }
    }
    Err(ErrorKind::FileTooLarge.into())
}

// Runs the script behind its `open` on the hub that was opened. No slip is lost, whatever could be shown.
fn run<S: ActorStore + Drop, R: BufRead>(
    rt: &impl Print,
    mut desk: Desk<S>,
    review: &mut Review,
    script: &mut Lines<R>,
) -> io::Result<()> {
    let made = make_all(rt, &mut desk, review, script);
    let told = desk.withhold_rest(rt);
    made?;
    told
}

// What became of a line before the hub is open: it opened the hub, and the rest of the script was run on it, or it opened none.
#[derive(Clone, Copy, PartialEq, Eq, Debug)]
enum Begun {
    Ran,
    Unopened,
}

// Opens a hub over the store, and runs the rest of the script on it.
fn open_over<S: ActorStore + Drop, R: BufRead>(
    rt: &impl Print,
    store: S,
    site: Site,
    review: &mut Review,
    script: &mut Lines<R>,
) -> io::Result<Begun> {
    match Hub::open(store, site) {
        Ok(hub) => {
            review.tell(rt, &Outcome::Made(Answer::Granted(Told::Done)))?;
            run(rt, Desk::new(hub, script.heap()), review, script)?;
            Ok(Begun::Ran)
        }
        // the store comes back with the fault, and is let go
        Err(back) => {
            review.tell(rt, &Outcome::Made(Answer::Refused(back.0)))?;
            Ok(Begun::Unopened)
        }
    }
}

// The image that a text spells.
fn read_image(text: &[u8]) -> Result<Image, Fault> {
    let mut block = [0; PAYLOAD_MOST];
    let length = hexadecimal::decode(text, &mut block)?;
    Image::open(&block[..length])
}

fn open<R: BufRead>(
    rt: &impl Print,
    store: Store<'_>,
    site: Site,
    review: &mut Review,
    script: &mut Lines<R>,
) -> io::Result<Begun> {
    // two arms of one shape, each over a store of another type
    let fault = match store {
        Store::Table(list) => match Table::open(list.entries()) {
            Ok(table) => return open_over(rt, table, site, review, script),
            Err(fault) => fault,
        },
        Store::Image(text) => match read_image(text) {
            Ok(image) => return open_over(rt, image, site, review, script),
            Err(fault) => fault,
        },
    };
    review.tell(rt, &Outcome::Made(Answer::Refused(fault)))?;
    Ok(Begun::Unopened)
}

// A line before the hub is open.
fn begin<R: BufRead>(
    rt: &impl Print,
    line: &[u8],
    review: &mut Review,
    script: &mut Lines<R>,
) -> io::Result<Begun> {
    match script::read(line) {
        Line::Passed => {}
        Line::Wanted(outcome) => review.want(rt, script.number(), outcome)?,
        Line::Call(Call::Open { site, store }) => return open(rt, store, site, review, script),
        Line::Call(_) => review.tell(rt, &Outcome::Unready)?,
        Line::Unknown(reason) => review.tell(rt, &Outcome::Unknown(reason))?,
    }
    Ok(Begun::Unopened)
}

// Runs a script as its lines come.
fn stage<R: BufRead>(
    rt: &impl Print,
    review: &mut Review,
    script: &mut Lines<R>,
) -> io::Result<()> {
    let mut line = script.blank();
    for _ in 0..u64::MAX {
        match script.next(rt, &mut line)? {
            Next::Line => {
                if begin(rt, line.as_slice(), review, script)? == Begun::Ran {
                    return Ok(());
                }
            }
            Next::Passed => {}
            Next::End => return Ok(()),
        }
    }
    Err(ErrorKind::FileTooLarge.into())
}

// Runs the script that is named, or that of standard input.
fn main(rt: HostRuntime) -> io::Result<ExitCode> {
    let words: Vec<String> = env::args(&rt)?.collect(rt.alloc())?;
    let matches = match command(rt.alloc())?.try_get_matches_from(words.as_slice()) {
        Ok(matches) => matches,
        Err(error) => {
            error.print(&rt)?;
            return Ok(ExitCode::from(error.exit_code() as u8));
        }
    };
    let echo = matches.get_flag("echo");
    let mut review = Review::new(rt.alloc());
    let staged = match matches.get_str("FILE") {
        Some(path) => match File::open(&rt, path) {
            Ok(file) => {
                let reader = BufReader::new(rt.alloc(), file)?;
                stage(&rt, &mut review, &mut Lines::new(rt.alloc(), reader, echo))
            }
            Err(error) => {
                eprintln!(rt; "{path}: {error}")?;
                return Ok(ExitCode::from(2));
            }
        },
        None => {
            let reader = BufReader::new(rt.alloc(), rt.stdin())?;
            stage(&rt, &mut review, &mut Lines::new(rt.alloc(), reader, echo))
        }
    };
    match staged {
        Ok(()) => {}
        // nobody reads on
        Err(error) if error.kind() == ErrorKind::BrokenPipe => {}
        Err(error) => return Err(error),
    }
    Ok(if review.has_failed() {
        ExitCode::FAILURE
    } else {
        ExitCode::SUCCESS
    })
}
