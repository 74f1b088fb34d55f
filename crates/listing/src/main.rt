// The listing program: reads a snapshot and framed messages from standard input, and writes the name table that they lead to.
#![tactic(auto)]

use std::io;
use std::io::{Cursor, Read};

// One byte more than is taken tells that there were more.
const READ: usize = 65537;

fn main(rt: HostRuntime) -> io::Result<()> {
    let mut input = [0u8; READ];
    let mut stdin = rt.stdin().take(READ as u64);
    let n = io::copy(&mut stdin, &mut Cursor::new(&mut input[..]))?;
    let mut text = [0u8; 2304];
    let k = show_listing::listing_text(framing::front(&input, n as usize), &mut text);
    rt.write_all(framing::front(&text, k))
}
