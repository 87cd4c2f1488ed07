// Images, by their blocks and their actors.
ghost use Rattle.std.specs.Prelude.{◌≡◌, ◌<◌, length};

use crate::refusals::UNKNOWN_ACTOR;
use crate::stores::reads;
use fault::{Fault, StoreFault};
use image::Image;
use std::test::Fail;
use store::{ActorStore, Half};

// The head of a block, with all values 0, in room for 17 pages.
fn block_of(pages: u8, frame_length: u16) -> [u8; 604]
    ensures { length result ≡ 604 }
{
    let mut bytes = [0; 604];
    bytes[..2].copy_from_slice(&[0x01, 0x75]);
    bytes[2..4].copy_from_slice(&frame_length.to_le_bytes());
    bytes[25] = pages;
    bytes
}

// The block with this word at a place, low byte first.
fn with_word(mut block: [u8; 604], place: usize, word: i16) -> [u8; 604]
    requires { place < 603 }
    ensures { length result ≡ 604 }
{
    let [low, high] = word.to_le_bytes();
    block[place] = low;
    block[place + 1] = high;
    block
}

#[test]
fn lawful_blocks(rt: HostRuntime) -> Result<(), Fail> {
    // what stands in the page behind its four actors may be any
    let small = with_word(block_of(1, 156), 148, 32_767);
    let image = Image::open(&small[0..156])?;
    assert_eq!(rt; image.block(), &small[0..156]);
    reads(
        &rt,
        &image,
        &[
            (4, Ok((0, 0))),
            (5, Err(UNKNOWN_ACTOR)),
            (0, Err(UNKNOWN_ACTOR)),
        ],
    );
    // actor 64: page 15, field 3, its target at 132 + 420 + 12 + 2
    let large = with_word(block_of(16, 576), 566, -5);
    reads(&rt, &Image::open(&large[0..576])?, &[(64, Ok((0, -5)))]);
    Ok(())
}

#[test]
fn unlawful_blocks(rt: HostRuntime) {
    let small = block_of(1, 156);
    let unlawful: [(&[u8], &str); 10] = [
        (&[], "no byte"),
        (&small[0..155], "a byte less"),
        (&small[0..157], "a byte more"),
        (&small[0..576], "one page in the room of 16"),
        (&block_of(1, 157)[0..156], "another FrameLength"),
        (&with_word(small, 0, 0x7601)[0..156], "another FrameID"),
        (&block_of(0, 128)[0..128], "no page"),
        (&block_of(17, 604), "17 pages"),
        (
            &with_word(block_of(16, 576), 566, 32_767)[0..576],
            "the target of actor 64 is 32,767",
        ),
        (
            &with_word(small, 132, -32_768)[0..156],
            "the actual value of actor 1 is -32,768",
        ),
    ];
    for (block, what) in unlawful {
        assert_eq!(rt;
            Image::open(block).err(),
            Some(Fault::Store(StoreFault::Image, 0)),
            "{what}"
        );
    }
}

#[test]
fn bytes_of_actor_six(rt: HostRuntime) -> Result<(), Fail> {
    let block = block_of(2, 184);
    let mut image = Image::open(&block[0..184])?;
    assert_eq!(rt; image.put(6, Half::Actual, 0x1234), Ok(()));
    assert_eq!(rt; image.put(6, Half::Target, -2), Ok(()));
    let changed = with_word(with_word(block, 164, 0x1234), 166, -2);
    assert_eq!(rt; image.block(), &changed[0..184]);
    reads(&rt, &image, &[(6, Ok((0x1234, -2)))]);
    Ok(())
}
