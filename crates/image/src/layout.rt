// Where a block keeps its actors' values, and how they are read and written there.
ghost use Rattle.std.specs.Prelude.{◌≡◌, ◌+◌, ◌<◌, ◌≤◌, length};
ghost use Rattle.image.specs.Layout.{Holds, length_of, pair_at, place_of, written};
ghost use Rattle.kind.specs.Layout.{word};

use store::Half;

// The length of a block.
pub(crate) fn length_of(pages: u8) -> usize
    ensures { result ≡ length_of pages }
{
    128 + 28 * pages as usize
}

// The place of one value of an actor.
pub(crate) fn place_of(half: Half, actor: u16) -> usize
    requires counted { 1 ≤ actor }
    ensures { result ≡ place_of half actor }
{
    let before = actor as usize - 1;
    let page = before / 4;
    let field = before % 4;
    let actual = 132 + 28 * page + 4 * field;
    match half {
        Half::Actual => actual,
        Half::Target => actual + 2,
    }
}

// The word at a place.
pub(crate) fn read_word(block: &[u8], at: usize) -> u16
    requires inside { at + 1 < length block.now }
    ensures { result ≡ word block.now at }
{
    u16::from_le_bytes([block[at], block[at + 1]])
}

// Both values of an actor.
pub(crate) fn read_pair(block: &[u8], actor: u16) -> (i16, i16)
    requires held { Holds block.now actor }
    ensures { result ≡ pair_at block.now actor }
{
    let actual = read_word(block, place_of(Half::Actual, actor));
    let target = read_word(block, place_of(Half::Target, actor));
    (actual.cast_signed(), target.cast_signed())
}

// Writes a value to its two bytes.
pub(crate) fn write_value(bytes: &mut [u8], at: usize, value: i16)
    requires inside { at + 1 < length bytes.old }
    ensures { bytes.new ≡ written bytes.old at value }
{
    bytes[at..at + 2].copy_from_slice(&value.to_le_bytes());
}
