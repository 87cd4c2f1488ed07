// The hub that the program opens, and what a text makes of it.
ghost use Rattle.std.specs.Prelude.{◌≡◌, OnOk};
ghost use Rattle.std.specs.Io.KnownBytes.{Appends};
ghost use Rattle.store.specs.Tables.{actors_in};
ghost use Rattle.hub.specs.Memory.{hub_model};
ghost use Rattle.hexline.specs.House.{house, report_on};

use crate::dispatch::tell;
use crate::line::hear_all;
use hub::Hub;
use model::Site;
use std::io;
use std::io::Write;
use store::Table;

const SITE: Site = Site {
    version: 0x0201,
    project: 0x1234,
    firmware: 0,
    design: 5,
};

/// Opens the hub over a table of actors 1 and 2. Switch 7 lists both, and switch 8 lists actor 2.
pub fn open() -> Hub<Table>
    ensures { hub_model actors_in result ≡ house }
{
    let mut hub = Hub::open(Table::open(&[1, 2]).unwrap(), SITE).unwrap();
    hub.enrol(7, &[1, 2]).unwrap();
    hub.enrol(8, &[2]).unwrap();
    hub
}

/// Writes what the program prints for a text: what each of its lines is answered with, in order and as it is heard, and
/// then what switch 7 and switch 8 are told.
pub fn play<W: Write>(text: &[u8], out: &mut W) -> io::Result<()>
    ensures { OnOk result (Appends (W.contents out.old) (W.contents out.new) (report_on text.now)) }
{
    let mut hub = open();
    hear_all(&mut hub, text, out)?;
    tell(&mut hub, 7, out)?;
    tell(&mut hub, 8, out)
}
