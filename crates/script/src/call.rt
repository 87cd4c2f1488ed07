// The calls that a script can make, and the lines that make them.
ghost use Rattle.std.specs.Prelude.{◌≡◌};
ghost use Rattle.script.specs.Calls.{call_for, call_in, kept, open_in, said, store_in, two_before};
ghost use Rattle.script.specs.Reasons.{made, read_as};
ghost use Rattle.script.specs.Rooms.{room_read};

use crate::actors::Actors;
use crate::number::number;
use crate::part::{Part, SPACE, one, one_word, two, two_words};
use crate::place::Place;
use crate::reason::Reason;
use crate::verb::Verb;
use crate::word::cut;
use model::Site;
use packet::PAYLOAD_MOST;

/// The store that a hub is opened over: a table of actors, or an image by its hexadecimal text.
#[derive(PartialEq, Eq, Debug, Drop)]
pub enum Store<'a> {
    Table(Actors),
    Image(&'a [u8]),
}

/// A call as a line of a script has it; a payload is the hexadecimal text of the line.
#[derive(PartialEq, Eq, Debug, Drop)]
pub enum Call<'a> {
    Open { site: Site, store: Store<'a> },
    Enrol { switch: u16, actors: Actors },
    Actual { actor: u16, value: i16 },
    Target { actor: u16, value: i16 },
    Control { switch: u16, word: u32 },
    Take(&'a [u8]),
    Compose { switch: u16, room: usize },
    Sent { switch: u16, number: u16 },
    Withheld { switch: u16, number: u16 },
    Marks { switch: u16, actor: u16 },
    Word(u16),
    Flags(u16),
    Key(u16),
    Reading(u16),
}

// The store that is asked for.
fn store_asked(text: &[u8]) -> Result<Store<'_>, Reason<'_>>
    ensures { made kept (read_as result) ≡ store_in text.now }
{
    let (name, store) = two_words(Verb::Open, text)?;
    match name {
        b"table" => Ok(Store::Table(Actors::read(store, Place::Actor)?)),
        b"image" => Ok(Store::Image(store)),
        _ => Err(Reason::Store(name)),
    }
}

// Two numbers of a site, and what stands behind them.
fn two_before(text: &[u8], places: (Place, Place)) -> Result<(u16, u16, &[u8]), Reason<'_>>
    ensures { made (λ p. (p.0, (p.1, p.2.now))) (read_as result) ≡ two_before places.0 places.1 text.now }
{
    match cut(text, SPACE) {
        Some((first, rest)) => match cut(rest, SPACE) {
            Some((second, rest)) => {
                Ok((
                    u16::read(first, places.0)?,
                    u16::read(second, places.1)?,
                    rest,
                ))
            }
            None => Err(Reason::Form(Verb::Open)),
        },
        None => Err(Reason::Form(Verb::Open)),
    }
}

// The words of a site, and the store behind them. A call of its own, as `enrol` is: a list of actors has room for 257.
#[inline(never)]
fn open(text: &[u8]) -> Result<Call<'_>, Reason<'_>>
    ensures { made said (read_as result) ≡ open_in text.now }
{
    let (version, project, rest) = two_before(text, (Place::Version, Place::Project))?;
    let (firmware, design, rest) = two_before(rest, (Place::Firmware, Place::Design))?;
    let store = store_asked(rest)?;
    let site = Site {
        version,
        project,
        firmware,
        design,
    };
    Ok(Call::Open { site, store })
}

// The switch that is to be enrolled, and its list.
#[inline(never)]
fn enrol(text: &[u8]) -> Result<Call<'_>, Reason<'_>>
    ensures { made said (read_as result) ≡ call_for Verb.Enrol text.now }
{
    let (switch, actors) = two(Verb::Enrol, text, (Place::Switch, Place::Actor))?;
    Ok(Call::Enrol { switch, actors })
}

// The room for a packet. No longer buffer is of use than the longest packet.
#[derive(Clone, Copy, PartialEq, Eq, Debug)]
struct Room {
    bytes: usize,
}

impl Part for Room {
    ghost reads = { room_read };

    fn read(text: &[u8], place: Place) -> Result<Self, Reason<'_>> {
        match number(text, PAYLOAD_MOST as u32) {
            Some(n) => Ok(Room { bytes: n as usize }),
            None => Err(Reason::Number(text, place)),
        }
    }
}

// The call with what stands behind its name.
fn behind(verb: Verb, rest: &[u8]) -> Result<Call<'_>, Reason<'_>>
    ensures { made said (read_as result) ≡ call_for verb rest.now }
{
    let call = match verb {
        Verb::Open => open(rest)?,
        Verb::Enrol => enrol(rest)?,
        Verb::Actual => {
            let (actor, value) = two(verb, rest, (Place::Actor, Place::Value))?;
            Call::Actual { actor, value }
        }
        Verb::Target => {
            let (actor, value) = two(verb, rest, (Place::Actor, Place::Value))?;
            Call::Target { actor, value }
        }
        Verb::Control => {
            let (switch, word) = two(verb, rest, (Place::Switch, Place::ControlWord))?;
            Call::Control { switch, word }
        }
        Verb::Take => Call::Take(one_word(verb, rest)?),
        Verb::Compose => {
            let (switch, Room { bytes: room }) = two(verb, rest, (Place::Switch, Place::Room))?;
            Call::Compose { switch, room }
        }
        Verb::Sent => {
            let (switch, number) = two(verb, rest, (Place::Switch, Place::PackageNumber))?;
            Call::Sent { switch, number }
        }
        Verb::Withheld => {
            let (switch, number) = two(verb, rest, (Place::Switch, Place::PackageNumber))?;
            Call::Withheld { switch, number }
        }
        Verb::Marks => {
            let (switch, actor) = two(verb, rest, (Place::Switch, Place::Actor))?;
            Call::Marks { switch, actor }
        }
        Verb::Word => Call::Word(one(verb, rest, Place::Switch)?),
        Verb::Flags => Call::Flags(one(verb, rest, Place::Switch)?),
        Verb::Key => Call::Key(one(verb, rest, Place::Switch)?),
        Verb::Reading => Call::Reading(one(verb, rest, Place::Switch)?),
    };
    Ok(call)
}

// The call that a line makes, if it is one.
#[tactic(auto, unfolding(crate::specs::Calls::call_in))]
pub(crate) fn parse(line: &[u8]) -> Result<Call<'_>, Reason<'_>>
    ensures { made said (read_as result) ≡ call_in line.now }
{
    match cut(line, SPACE) {
        Some((name, rest)) => match Verb::named(name) {
            Some(verb) => behind(verb, rest),
            None => Err(Reason::Name(name)),
        },
        None => match Verb::named(line) {
            Some(verb) => Err(Reason::Form(verb)),
            None => Err(Reason::Name(line)),
        },
    }
}
