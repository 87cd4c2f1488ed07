// Lines and packets in turns, as no input can bring them: the program composes at its end alone.
use crate::dispatch::tell;
use crate::house::{open, play};
use crate::line::hear_all;
use Turn::{Line, Tell};
use std::test::Fail;

#[derive(Drop)]
enum Turn {
    Line(&'static str),
    Tell(u16),
}

#[test]
fn answers_and_refusals(rt: HostRuntime) -> Result<(), Fail> {
    let turns = [
        // switch 8 sets the target of actor 2 to −5, and switch 7 is told
        (
            Line("0186160001020000341203020800050006420200FBFF"),
            "event 1\n",
        ),
        (
            Tell(7),
            "0186300001020100341200000700050006430100000006420100000006430200000006420200FBFF0821000030010000\n",
        ),
        // another number than that of the packet, then its own, and that once more
        (
            Line("0186160001020300341203020700050006420100E600"),
            "stale 1\n",
        ),
        (
            Line(
                "0186300001020100341203020700050006430100000006420100000006430200000006420200fbff0821000030010000",
            ),
            "answer 5\n",
        ),
        (Line("018610000102010034120302070005000"), "refused 23 33\n"),
        (Line("01861000010201003412030207000500"), "stale 0\n"),
        (Tell(7), "refused 19 0\n"),
        (Tell(9), "refused 6 0\n"),
        // an ActorID that switch 8 does not list, another ProjectID, a switch that is not enrolled
        (
            Line("0186160001020000341203020800050006420100E600"),
            "refused 10 16\n",
        ),
        (
            Line("0186160001020000351203020800050006420200E600"),
            "refused 5 8\n",
        ),
        (
            Line("0186160001020000341203020900050006420200E600"),
            "refused 6 12\n",
        ),
        // what is due since: at switch 7 the target of actor 1, 220; at switch 8 all, for the first time
        (
            Line("0186160001020000341203020700050006420100DC00"),
            "event 1\n",
        ),
        (
            Tell(7),
            "01861C0001020200341200000700050006430100000006420100DC00\n",
        ),
        (
            Tell(8),
            "0186240001020100341200000800050006430200000006420200FBFF0821000030010000\n",
        ),
    ];
    let mut hub = open();
    for (turn, wanted) in turns {
        let mut out = Vec::new(rt.alloc());
        match turn {
            Line(text) => hear_all(&mut hub, text.as_bytes(), &mut out)?,
            Tell(switch) => tell(&mut hub, switch, &mut out)?,
        }
        assert_eq!(rt; out.as_slice(), wanted.as_bytes());
    }
    Ok(())
}

#[test]
fn whole_texts(rt: HostRuntime) -> Result<(), Fail> {
    let texts = [
        // nobody has said anything, so that each switch is told all
        (
            "",
            concat!(
                "0186300001020100341200000700050006430100000006420100000006430200000006420200000008210000",
                "30010000\n",
                "0186240001020100341200000800050006430200000006420200000008210000",
                "30010000\n",
            ),
        ),
        (
            concat!(
                "0186160001020000341203020800050006420200FBFF\n",
                "0186160001020000341203020700050006420100dc00\n",
                "0186160001020300341203020700050006420100E600\n",
                "0186160001020000341203020900050006420100E600\n",
                "01861",
            ),
            concat!(
                "event 1\n",
                "event 1\n",
                "stale 1\n",
                "refused 6 12\n",
                "refused 23 5\n",
                "0186300001020100341200000700050006430100000006420100DC0006430200000006420200FBFF08210000",
                "30010000\n",
                "0186240001020100341200000800050006430200000006420200FBFF08210000",
                "30010000\n",
            ),
        ),
    ];
    for (text, wanted) in texts {
        let mut out = Vec::new(rt.alloc());
        play(text.as_bytes(), &mut out)?;
        assert_eq!(rt; out.as_slice(), wanted.as_bytes());
    }
    Ok(())
}
