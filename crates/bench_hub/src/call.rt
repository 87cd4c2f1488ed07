// The calls of a script.
ghost use Rattle.std.specs.Prelude.{◌≡◌};
ghost use Rattle.bench_hub.specs.Playing.{handing};

// What becomes of a slip: it is kept, or handed in as sent or as withheld.
#[derive(Clone, Copy)]
pub(crate) enum Fate {
    Kept,
    Sent,
    Withheld,
}

impl Fate {
    // How a slip is handed in: as sent, or else as withheld.
    pub(crate) fn handing(self) -> hub::Fate
        ensures { result ≡ handing self }
    {
        match self {
            Fate::Sent => hub::Fate::Sent,
            Fate::Kept | Fate::Withheld => hub::Fate::Withheld,
        }
    }
}

// A call that opens and closes no slip. The list of an enrolment, and the payload of a take, are the data behind its head.
#[derive(Clone, Copy)]
pub(crate) enum Plain {
    Nothing,
    Enrol(u16),
    Actual { actor: u16, value: i16 },
    Target { actor: u16, value: i16 },
    Control { switch: u16, word: u32 },
    Take,
    ActorMark { switch: u16, actor: u16 },
    ControlMark(u16),
    Flags(u16),
    LatestKey(u16),
    Reading(u16),
    Outstanding(u16),
}

#[derive(Clone, Copy)]
pub(crate) enum Call {
    Plain(Plain),
    Compose { switch: u16, room: u16, fate: Fate },
    HandIn(Fate),
    HandToStranger(Fate),
}
