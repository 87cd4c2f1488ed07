// What the words of a call stand for.
ghost use Rattle.std.specs.Prelude.{Some};
ghost use Rattle.script.specs.Places.{place_text};

use std::fmt;

/// What a word of a call stands for, which says the numbers that it may write.
#[derive(Clone, Copy, PartialEq, Eq, Debug)]
pub enum Place {
    Version,
    Project,
    Firmware,
    Design,
    Switch,
    Actor,
    Value,
    ControlWord,
    Room,
    PackageNumber,
}

impl fmt::Display for Place {
    ghost output = { λ place. Some (place_text place) };

    fn fmt<W: fmt::Write>(&self, f: &mut fmt::Formatter<W>) -> fmt::Result {
        f.write_str(match self {
            Place::Version => "version, 0 to 65535",
            Place::Project => "project, 0 to 65535",
            Place::Firmware => "firmware, 0 to 65535",
            Place::Design => "design, 0 to 65535",
            Place::Switch => "switch, 0 to 65535",
            Place::Actor => "actor, 0 to 65535",
            Place::Value => "value, -32768 to 32767",
            Place::ControlWord => "control word, 0 to 4294967295",
            Place::Room => "room, 0 to 1472",
            Place::PackageNumber => "package number, 0 to 65535",
        })
    }
}
