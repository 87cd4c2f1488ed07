// Tables, by their lists and their actors.
ghost use Rattle.std.specs.Prelude.{◌≡◌, length};

use crate::refusals::{FORBIDDEN_VALUE, UNKNOWN_ACTOR};
use crate::stores::reads;
use fault::{Fault, StoreFault};
use std::test::Fail;
use store::{ActorStore, Half, Table};

// Actors 1 to 257.
fn numbered() -> [u16; 257]
    ensures { length result ≡ 257 }
{
    let mut list = [0; 257];
    for (entry, actor) in list.iter_mut().zip(1..=257) {
        *entry = actor;
    }
    list
}

#[test]
fn lists(rt: HostRuntime) -> Result<(), Fail> {
    let list = numbered();
    reads(
        &rt,
        &Table::open(&list[0..1])?,
        &[(1, Ok((0, 0))), (2, Err(UNKNOWN_ACTOR))],
    );
    reads(
        &rt,
        &Table::open(&list[0..256])?,
        &[
            (1, Ok((0, 0))),
            (256, Ok((0, 0))),
            (257, Err(UNKNOWN_ACTOR)),
        ],
    );
    let unlawful: [(&[u16], Fault); 4] = [
        (&list, Fault::Store(StoreFault::ListLength, 0)),
        (&[], Fault::Store(StoreFault::ListLength, 0)),
        (&[5, 0, 5], Fault::Store(StoreFault::ListEntry, 1)),
        (&[5, 7, 5, 0], Fault::Store(StoreFault::ListEntry, 2)),
    ];
    for (list, refusal) in unlawful {
        assert_eq!(rt; Table::open(list).err(), Some(refusal), "{refusal:?}");
    }
    Ok(())
}

#[test]
fn actors_in_any_order(rt: HostRuntime) -> Result<(), Fail> {
    let mut table = Table::open(&[9, 65_535, 2, 300])?;
    for (actor, half, value, answer) in [
        (300, Half::Target, 220, Ok(())),
        (65_535, Half::Actual, -32_767, Ok(())),
        (3, Half::Actual, 32_767, Err(UNKNOWN_ACTOR)),
        (9, Half::Actual, 32_767, Err(FORBIDDEN_VALUE)),
        (9, Half::Target, -32_768, Err(FORBIDDEN_VALUE)),
    ] {
        assert_eq!(rt; table.put(actor, half, value), answer, "actor {actor}");
    }
    reads(
        &rt,
        &table,
        &[
            (2, Ok((0, 0))),
            (9, Ok((0, 0))),
            (300, Ok((0, 220))),
            (65_535, Ok((-32_767, 0))),
        ],
    );
    Ok(())
}
