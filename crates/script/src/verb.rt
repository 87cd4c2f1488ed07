// The names of the calls.
ghost use Rattle.std.specs.Prelude.{◌≡◌};
ghost use Rattle.script.specs.Verbs.{form_of, verb_of};

/// The call that a line names.
#[derive(Clone, Copy, PartialEq, Eq, Debug)]
pub enum Verb {
    Open,
    Enrol,
    Actual,
    Target,
    Control,
    Take,
    Compose,
    Sent,
    Withheld,
    Marks,
    Word,
    Flags,
    Key,
    Reading,
}

impl Verb {
    // The call of that name.
    pub(crate) fn named(name: &[u8]) -> Option<Verb>
        ensures { result ≡ verb_of name.now }
    {
        match name {
            b"open" => Some(Verb::Open),
            b"enrol" => Some(Verb::Enrol),
            b"actual" => Some(Verb::Actual),
            b"target" => Some(Verb::Target),
            b"control" => Some(Verb::Control),
            b"take" => Some(Verb::Take),
            b"compose" => Some(Verb::Compose),
            b"sent" => Some(Verb::Sent),
            b"withheld" => Some(Verb::Withheld),
            b"marks" => Some(Verb::Marks),
            b"word" => Some(Verb::Word),
            b"flags" => Some(Verb::Flags),
            b"key" => Some(Verb::Key),
            b"reading" => Some(Verb::Reading),
            _ => None,
        }
    }

    // How a line with this call is written.
    pub(crate) fn form(self) -> &'static str
        ensures { result.now ≡ form_of self }
    {
        match self {
            Verb::Open => "open VERSION PROJECT FIRMWARE DESIGN table A,B,.. or image HEX",
            Verb::Enrol => "enrol S A,B,..",
            Verb::Actual => "actual A V",
            Verb::Target => "target A V",
            Verb::Control => "control S WORD",
            Verb::Take => "take HEX",
            Verb::Compose => "compose S ROOM",
            Verb::Sent => "sent S NUMBER",
            Verb::Withheld => "withheld S NUMBER",
            Verb::Marks => "marks S A",
            Verb::Word => "word S",
            Verb::Flags => "flags S",
            Verb::Key => "key S",
            Verb::Reading => "reading S",
        }
    }
}
