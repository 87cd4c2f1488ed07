// Shows a capture, one payload in hexadecimal a line of standard input, in words.
#![tactic(auto)]

ghost use Rattle.std.specs.Prelude.{◌≡◌, ◌≤◌, true, length, take, is_ok, IfOk};
ghost use Rattle.hexadecimal.specs.Decoding.{decode_tells};
ghost use Rattle.packet.specs.Reading.{messages_from};
ghost use Rattle.umpdump.specs.Accepted.{accepted_of};

mod degrees;
mod heading;
mod row;

use fault::Fault;
use heading::Heading;
use hexadecimal::Lines;
use packet::{Cursor, PAYLOAD_MOST, Packet};
use row::Row;
use std::io;
use std::io::Read;

// Shows each message of a payload that was accepted whole, so that none of them can be refused here.
fn show_messages(rt: &impl Print, payload: &[u8]) -> io::Result<()>
    requires { is_ok (messages_from payload.now 16) ≡ true }
{
    let mut cursor = Cursor::new(payload);
    while let Some((offset, message)) = cursor.next().unwrap() {
        rt.println(Row { offset, message })?;
    }
    Ok(())
}

// Reads a line's payload into the buffer, which has room for the longest, and checks all of it: its length, and what
// is known of it.
fn accept(line: &[u8], buf: &mut [u8]) -> Result<(usize, Packet), Fault>
    requires room { length buf.old ≡ 1472 }
    ensures answer { result ≡ accepted_of (decode_tells line.now 1472) buf.new }
    ensures whole { IfOk result (λ p. (p.0 ≤ length buf.new) × (is_ok (messages_from (take p.0 buf.new) 16) ≡ true)) }
{
    let length = hexadecimal::decode(line, buf)?;
    let packet = Packet::read(&buf[0..length])?;
    Ok((length, packet))
}

// Shows one line of the capture, or why it is refused.
fn show_line(rt: &impl Print, number: usize, line: &[u8]) -> io::Result<()> {
    let mut buf = [0; PAYLOAD_MOST];
    match accept(line, &mut buf) {
        Ok((length, packet)) => {
            rt.println(Heading {
                line: number,
                length,
                words: packet.descriptor,
            })?;
            show_messages(rt, &buf[0..length])
        }
        Err(fault) => println!(rt; "refused {fault}"),
    }
}

// Shows every line of the capture, the first one as number 1.
fn show_all(rt: &impl Print, capture: &[u8]) -> io::Result<()> {
    for (i, line) in Lines::new(capture).enumerate() {
        show_line(rt, i + 1, line)?;
    }
    Ok(())
}

fn main(rt: HostRuntime) -> io::Result<()> {
    let mut capture = Vec::new(rt.alloc());
    rt.stdin().read_to_end(&mut capture)?;
    show_all(&rt, capture.as_slice())
}
