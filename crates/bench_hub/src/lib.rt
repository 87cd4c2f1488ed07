// A hub for the bench: byte-coded scripts of calls, played on a hub of their own. How calls and outcomes are written
// stands in specs/Calls.antt and specs/Outcomes.antt.
#![tactic(auto)]

ghost use Rattle.std.specs.Prelude.{◌≡◌, ◌≤◌, length};
ghost use Rattle.store.specs.Lists.{table_over};
ghost use Rattle.store.specs.Meaning.{meant};
ghost use Rattle.image.specs.Layout.{actors_of, image_over};
ghost use Rattle.bench_hub.specs.Scripts.{play};

mod applying;
mod call;
mod calling;
mod entries;
mod head;
mod opening;
mod outcome;
mod player;
mod playing;
mod slips;
mod stranger;
mod telling;

use image::Image;
use opening::play;
use store::Table;

// Plays a script so many times on a hub over a table of the listed actors, and tells how many bytes of `out` hold
// outcomes: that of the opening, and those of the last time.
#[unsafe(no_mangle)]
pub extern "C" fn play_on_table(
    version: u16,
    entries: &[u16],
    script: &[u8],
    times: u32,
    out: &mut [u8],
) -> usize
    ensures length { result ≡ (play version (table_over entries.now) script.now times out.old).0 }
    ensures bytes { out.new ≡ (play version (table_over entries.now) script.now times out.old).1 }
    ensures within { result ≤ length out.old }
{
    play(Table::open(entries), version, script, times, out)
}

// The same on a hub over the image of a block.
#[unsafe(no_mangle)]
pub extern "C" fn play_on_image(
    version: u16,
    block: &[u8],
    script: &[u8],
    times: u32,
    out: &mut [u8],
) -> usize
    ensures length { result ≡ (play version (meant actors_of (image_over block.now)) script.now times out.old).0 }
    ensures bytes { out.new ≡ (play version (meant actors_of (image_over block.now)) script.now times out.old).1 }
    ensures within { result ≤ length out.old }
{
    play(Image::open(block), version, script, times, out)
}
