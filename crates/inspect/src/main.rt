// Reads lines of hexadecimal text from standard input, each a datagram, and writes a line for each that says what it is
// as a CoAP message. The last line says how many lines there were of each kind.
#![tactic(auto)]

mod datagram;
mod error;
mod fields;
mod line;
mod options;
mod stream;

use crate::stream::Stream;
use std::io;
use std::io::{ErrorKind, Read, Write};

// The most bytes that are read at once.
const PIECE: usize = 32_768;

fn main(rt: HostRuntime) -> io::Result<()> {
    let mut stream = Stream::new(rt.alloc());
    let mut out = Vec::new(rt.alloc());
    let mut buffer = vec![in rt.alloc(); 0; PIECE]?;
    // Nothing says that an input ends, so the turns are counted.
    for _ in 0..u64::MAX {
        match rt.stdin().read(&mut buffer) {
            Ok(0) => break,
            Ok(size) => {
                stream.feed(rt.alloc(), &buffer[0..size], &mut out)?;
                rt.stdout().write_all(&out)?;
                out.clear();
            }
            Err(why) if why.kind() == ErrorKind::Interrupted => {}
            Err(why) => return Err(why),
        }
    }
    stream.finish(rt.alloc(), &mut out)?;
    rt.stdout().write_all(&out)
}
