// Which lines of a script are read, and with which numbers, however few of its bytes come at once.
use crate::lines::{Lines, Next};
use script::Text;
use std::io::BufReader;
use std::test::Fail;

#[test]
fn numbers(rt: HostRuntime) -> Result<(), Fail> {
    let scripts = [
        ("", ""),
        ("\n", ""),
        ("# alone", ""),
        ("flags 7", "1 flags 7\n"),
        (
            "\n\n# before\nflags 7\n\n#\n\n= ok 0\n# after",
            "4 flags 7\n8 = ok 0\n",
        ),
        // a space or a carriage return is no comment, and what follows a comment's carriage return is one still
        (" # x\n\r\n# x\ry\nkey 7\n", "1  # x\n2 x0D\n4 key 7\n"),
    ];
    for (script, wanted) in scripts {
        for capacity in [1, 2, 3, 8, 64] {
            let reader = BufReader::with_capacity(rt.alloc(), capacity, script.as_bytes())?;
            let mut lines = Lines::new(rt.alloc(), reader, false);
            let mut line = lines.blank();
            let mut read = String::new(rt.alloc());
            for _ in 0..100 {
                match lines.next(&rt, &mut line)? {
                    Next::Line => {
                        let number = lines.number();
                        let text = Text(line.as_slice());
                        writeln!(read, "{number} {text}")?;
                    }
                    Next::Passed => {}
                    Next::End => break,
                }
            }
            assert_eq!(rt; read.as_str(), wanted);
        }
    }
    Ok(())
}
