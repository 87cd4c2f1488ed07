// What each answer tells.
ghost use Rattle.std.specs.Prelude.{◌≡◌};
ghost use Rattle.bench_hub.specs.Telling.{flags_told, key_told, mark_told, outcome_of, outstanding_told, reading_told, taken_told, unit_told};

use crate::outcome::{Outcome, Told, UNTOLD, low_word};
use fault::Fault;
use model::{Arrival, KeyPress, Mark};

// An answer that tells up to three words.
pub(crate) trait Tells {
    ghost use Rattle.bench_hub.specs.declared.outcome.Told.{Told};

    ghost told: { Self → Told };

    fn told(self) -> Told
        ensures { result ≡ told self };
}

// The outcome of a call that was answered so.
pub(crate) fn outcome_of<T: Tells>(answer: Result<T, Fault>) -> Outcome
    ensures { result ≡ outcome_of T.told answer }
{
    match answer {
        Ok(answer) => Outcome::Done(answer.told()),
        Err(fault) => Outcome::Refused(fault),
    }
}

impl Tells for () {
    ghost told = { unit_told };

    fn told(self) -> Told {
        UNTOLD
    }
}

// What a payload was, and how many of its messages were understood.
impl Tells for (Arrival, usize) {
    ghost told = { taken_told };

    fn told(self) -> Told {
        let (arrival, understood) = self;
        let x = match arrival {
            Arrival::Event => 0,
            Arrival::Answer => 1,
            Arrival::Stale => 2,
        };
        Told {
            x,
            y: low_word(understood),
            z: 0,
        }
    }
}

impl Tells for Mark {
    ghost told = { mark_told };

    fn told(self) -> Told {
        let x = match self {
            Mark::Settled => 0,
            Mark::Due => 1,
            Mark::UnderWay => 2,
        };
        Told { x, ..UNTOLD }
    }
}

// Flags, the low word first.
impl Tells for u32 {
    ghost told = { flags_told };

    fn told(self) -> Told {
        Told {
            x: (self % 65536) as u16,
            y: (self / 65536) as u16,
            z: 0,
        }
    }
}

impl Tells for Option<KeyPress> {
    ghost told = { key_told };

    fn told(self) -> Told {
        match self {
            Some(KeyPress { actor, key }) => Told {
                x: actor,
                y: u16::from(key),
                z: 1,
            },
            None => UNTOLD,
        }
    }
}

// A reading in tenths of a degree.
impl Tells for Option<i16> {
    ghost told = { reading_told };

    fn told(self) -> Told {
        match self {
            Some(tenths) => Told {
                x: tenths.cast_unsigned(),
                y: 0,
                z: 1,
            },
            None => UNTOLD,
        }
    }
}

// Whether anything is outstanding.
impl Tells for bool {
    ghost told = { outstanding_told };

    fn told(self) -> Told {
        Told {
            x: u16::from(self),
            ..UNTOLD
        }
    }
}
