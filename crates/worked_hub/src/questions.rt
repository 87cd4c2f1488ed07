// Questions.
use crate::house::{STRANGER, house};
use fault::{ActorFault, Fault};
use model::Mark;
use std::test::Fail;

#[test]
fn questions(rt: HostRuntime) -> Result<(), Fail> {
    let hub = house()?;
    assert_eq!(rt; hub.actor_mark(7, 1), Ok(Mark::Due));
    assert_eq!(rt;
        hub.actor_mark(7, 3),
        Err(Fault::Actor(ActorFault::NotListed, 0))
    );
    let of_a_stranger = [
        hub.actor_mark(9, 1).err(),
        hub.control_mark(9).err(),
        hub.flags(9).err(),
        hub.latest_key(9).err(),
        hub.reading(9).err(),
        hub.has_outstanding(9).err(),
    ];
    assert_eq!(rt; of_a_stranger, [Some(STRANGER); 6]);
    Ok(())
}
