// What holds whatever the store.
use crate::read_back::put_and_read;
use crate::refusals::{FORBIDDEN_VALUE, UNKNOWN_ACTOR};
use fault::Fault;
use image::Image;
use std::process::Abort;
use std::test::Fail;
use store::{ActorStore, Half, Table};

// An actor, and what reading it tells: its actual value and its target, or the refusal.
pub(crate) type Reading = (u16, Result<(i16, i16), Fault>);

// Checks what reading these actors tells.
pub(crate) fn reads<S: ActorStore>(rt: &impl Abort, store: &S, readings: &[Reading]) {
    for &(actor, answer) in readings {
        assert_eq!(rt; store.read(actor), answer, "actor {actor}");
    }
}

// Four puts, each read back: actor 4 is known, actor 5 is not.
fn four_puts<S: ActorStore>(rt: &impl Abort, store: &mut S) {
    for (actor, half, value, answer) in [
        (4, Half::Actual, 32_766, Ok((32_766, 0))),
        (4, Half::Target, -32_767, Ok((32_766, -32_767))),
        (5, Half::Target, 32_767, Err(UNKNOWN_ACTOR)),
        (4, Half::Target, 32_767, Err(FORBIDDEN_VALUE)),
    ] {
        assert_eq!(rt;
            put_and_read(store, actor, half, value),
            answer,
            "actor {actor}"
        );
    }
    // what was refused has changed nothing
    reads(rt, store, &[(4, Ok((32_766, -32_767)))]);
}

#[test]
fn any_store(rt: HostRuntime) -> Result<(), Fail> {
    four_puts(&rt, &mut Table::open(&[4, 3, 2, 1])?);
    let mut block = [0; 156];
    block[..4].copy_from_slice(&[0x01, 0x75, 156, 0]);
    block[25] = 1;
    four_puts(&rt, &mut Image::open(&block)?);
    Ok(())
}
