// The image: an actor store that keeps the bytes of a ControlBlock as they are.
ghost use Rattle.std.specs.Prelude.{◌≡◌, ◌*◌, ◌≤◌, true, false, ◌++◌, length, drop, Some, Ok};
ghost use Rattle.store.specs.Meaning.{lawful_pair};
ghost use Rattle.image.specs.Layout.{Holds, block_in, lawful_block, lawful_frame, lawful_values, page_count, pair_at};

use crate::layout::{length_of, place_of, read_pair, read_word, write_value};
use fault::{Fault, StoreFault};
use store::{ActorStore, Half, check_value, is_forbidden};

// Room for the largest block, zeros at first. The block stands at the front, and its own Page.Count tells its length.
#[derive(Drop)]
struct Block {
    bytes: [u8; 576],
}

/// An actor store over a ControlBlock of 1 to 16 pages, whose bytes it keeps as they are: actors 1 to 4 for each page.
#[derive(Drop)]
pub struct Image {
    block: Block,
    ghost long: { length block.bytes ≡ 576 },
    ghost lawful: { lawful_block (block_in block.bytes) ≡ true },
}

impl Image {
    ghost use Rattle.store.specs.Meaning.{after_put, forbidden, meant};
    ghost use Rattle.image.specs.Images.{block_of};
    ghost use Rattle.image.specs.Layout.{actor_answer, actors_of, has_actor, image_over, place_of, written};

    /// An image of a lawful block, whose bytes are copied. Refuses any other slice (21, at place 0): a lawful one has FrameID 0x7501,
    /// 1 to 16 pages, 128 bytes and 28 for each page both by its FrameLength and in truth, and no forbidden value of an actor.
    pub fn open(block: &[u8]) -> Result<Image, Fault>
        ensures { meant block_of result ≡ image_over block.now }
    {
        if !is_lawful(block) {
            return Err(Fault::Store(StoreFault::Image, 0));
        }
        Ok(Image::keep(block))
    }

    // The block in room that starts as zeros.
    fn keep(block: &[u8]) -> Image
        requires lawful { lawful_block block.now ≡ true }
        ensures { block_of result ≡ block.now }
    {
        let mut kept = Block { bytes: [0u8; 576] };
        copy_front(&mut kept.bytes, block);
        Image { block: kept }
    }

    /// The block as it now is, in its own length of 156 to 576 bytes; it can be opened again.
    /// Each put that was not refused has replaced the two bytes of its value, and every other byte is as it was opened.
    pub fn block(&self) -> &[u8]
        ensures is { result.now ≡ block_of self.now }
        ensures opens { image_over (block_of self.now) ≡ Ok (block_of self.now) }
    {
        &self.block.bytes[..length_of(self.page_count())]
    }

    fn page_count(&self) -> u8
        ensures is { result ≡ page_count self.now.block.bytes }
        ensures few { result ≤ 16 }
    {
        self.block.bytes[25]
    }

    // Refuses an actor that the block does not have.
    fn check_actor(&self, actor: u16) -> Result<(), Fault>
        ensures { result ≡ actor_answer (block_of self.now) actor }
    {
        let known = 1..=4 * self.page_count() as u16;
        if !known.contains(&actor) {
            return Err(Fault::Store(StoreFault::UnknownActor, 0));
        }
        Ok(())
    }

    // Writes one value of an actor of the block.
    fn write(&mut self, actor: u16, half: Half, value: i16)
        requires known { has_actor (page_count (block_of self.old)) actor ≡ true }
        requires lawful { forbidden value ≡ false }
        ensures bytes { block_of self.new ≡ written (block_of self.old) (place_of half actor) value }
        ensures after { actors_of (block_of self.new) ≡ after_put (actors_of (block_of self.old)) actor half value }
    {
        let at = place_of(half, actor);
        write_value(&mut self.block.bytes, at, value);
    }
}

impl ActorStore for Image {
    ghost use Rattle.store.specs.Meaning.{after_put, put_answer};
    ghost use Rattle.image.specs.Images.{block_of};
    ghost use Rattle.image.specs.Layout.{actors_of, block_after};
    ghost use Rattle.image.specs.LawfulValues.{lawful_actors};

    ghost meaning = { λ s. actors_of (block_of s) };

    ghost lawful = { λ s a. lawful_actors (block_of s) a s.lawful };

    fn read(&self, actor: u16) -> Result<(i16, i16), Fault> {
        self.check_actor(actor)?;
        Ok(read_pair(self.block(), actor))
    }

    fn put(&mut self, actor: u16, half: Half, value: i16) -> Result<(), Fault>
        ensures answer { result ≡ put_answer (actors_of (block_of self.old)) actor value }
        ensures after { actors_of (block_of self.new) ≡ after_put (actors_of (block_of self.old)) actor half value }
        ensures bytes { block_of self.new ≡ block_after (block_of self.old) actor half value }
    {
        self.check_actor(actor)?;
        check_value(value)?;
        self.write(actor, half, value);
        Ok(())
    }
}

// Whether an image may be opened over the bytes.
fn is_lawful(block: &[u8]) -> bool
    ensures { result ≡ lawful_block block.now }
{
    has_lawful_frame(block) && has_lawful_values(block)
}

// Whether FrameID, Page.Count and both lengths are those of a block.
fn has_lawful_frame(block: &[u8]) -> bool
    ensures { result ≡ lawful_frame block.now }
{
    let Some(&pages) = block.get(25) else {
        return false;
    };
    read_word(block, 0) == 0x7501
        && (1..=16).contains(&pages)
        && block.len() == length_of(pages)
        && read_word(block, 2) as usize == length_of(pages)
}

// Whether no actor of the block has a forbidden value.
fn has_lawful_values(block: &[u8]) -> bool
    requires framed { lawful_frame block.now ≡ true }
    ensures { result ≡ lawful_values block.now (4 * page_count block.now) }
{
    (1..=4 * block[25] as u16).all(|actor| has_lawful_pair(block, actor))
}

// Whether neither value of an actor is forbidden.
fn has_lawful_pair(block: &[u8], actor: u16) -> bool
    requires held { Holds block.now actor }
    ensures { result ≡ lawful_pair (Some (pair_at block.now actor)) }
{
    let (actual, target) = read_pair(block, actor);
    !is_forbidden(actual) && !is_forbidden(target)
}

// Lays a block over the front of the room for it.
fn copy_front(room: &mut [u8], block: &[u8])
    requires fits { length block.now ≤ length room.old }
    ensures { room.new ≡ block.now ++ drop (length block.now) room.old }
{
    room[..block.len()].copy_from_slice(block);
}
