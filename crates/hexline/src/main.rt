// A hub with two switches on lines of text: payloads in hexadecimal come in, one a line, and the packets that are
// then due go out.
#![tactic(auto)]

mod dispatch;
mod house;
mod line;
#[cfg(test)]
mod tests;

use std::io;
use std::io::{BufWriter, Read, Write};

fn main(rt: HostRuntime) -> io::Result<()> {
    let mut text = Vec::new(rt.alloc());
    rt.stdin().read_to_end(&mut text)?;
    let mut out = BufWriter::new(rt.alloc(), io::writer(&rt))?;
    house::play(text.as_slice(), &mut out)?;
    out.flush()
}
