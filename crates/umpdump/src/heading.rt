// The two lines that begin what is shown of a payload: who sent what, and the descriptor's other words.
ghost use Rattle.std.specs.Prelude.{Some};
ghost use Rattle.umpdump.specs.Shown.{heading_text, version_text, words_text};

use hexadecimal::Digits;
use packet::Descriptor;
use std::fmt;

// The version of a packet: the major one in decimal, the minor one in two hexadecimal digits.
#[derive(Clone, Copy, PartialEq, Eq, Debug)]
struct Version(u16);

impl fmt::Display for Version {
    ghost output = { λ version. Some (version_text version.0) };

    fn fmt<W: fmt::Write>(&self, f: &mut fmt::Formatter<W>) -> fmt::Result {
        let [major, minor] = self.0.to_be_bytes();
        write!(f, "{major}.{}", Digits(&[minor]))
    }
}

// The words of a descriptor that do not say who is concerned.
#[derive(Clone, Copy, PartialEq, Eq, Debug)]
struct Words(Descriptor);

impl fmt::Display for Words {
    ghost output = { λ words. Some (words_text words.0) };

    fn fmt<W: fmt::Write>(&self, f: &mut fmt::Formatter<W>) -> fmt::Result {
        let Descriptor {
            version,
            number,
            switch: _,
            project,
            firmware,
            design,
        } = self.0;
        let version = Version(version);
        let project = project.to_be_bytes();
        let firmware = firmware.to_be_bytes();
        write!(
            f,
            "version {version}  project 0x{}  firmware 0x{}  design {design}  package {number}",
            Digits(&project),
            Digits(&firmware)
        )
    }
}

/// What is known of a payload before its messages: the number of its line in the capture, its length in bytes, and
/// its descriptor. It writes itself as the two lines above them, with no line feed behind the second.
#[derive(Clone, Copy, PartialEq, Eq, Debug)]
pub struct Heading {
    pub line: usize,
    pub length: usize,
    pub words: Descriptor,
}

impl fmt::Display for Heading {
    ghost output = { λ heading. Some (heading_text heading) };

    fn fmt<W: fmt::Write>(&self, f: &mut fmt::Formatter<W>) -> fmt::Result {
        let Heading {
            line,
            length,
            words,
        } = *self;
        let sort = words.sort();
        let switch = words.switch;
        let words = Words(words);
        write!(
            f,
            "line {line}: {length} bytes, {sort} from switch {switch}\n  {words}"
        )
    }
}
