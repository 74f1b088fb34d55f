// Tells what a replica makes of each message: reads a snapshot and framed messages from standard input, and writes the name table
// of the snapshot and a line for each delivery. Two traces that are equal line by line come from equal replicas.
#![tactic(auto)]

use replica::Replica;
use std::io;
use std::io::{Cursor, Read};

// It takes as many bytes of input, and one more tells that there were more.
const INPUT: usize = 1048576;

const READ: usize = 1048577;

// No line is longer: the fields of a message take 393,216 bytes at most, six of 16,384 with four characters a byte, and all else, as
// the whole name table at the start, takes less than 32,768.
const LINE: usize = 524288;

// Functions of their own: tried as a `let` in `main`, and the proof did not close (an array of a million zeros in its goals).
fn input_space() -> [u8; READ] {
    [0u8; READ]
}

fn line_space() -> [u8; LINE] {
    [0u8; LINE]
}

fn out(rt: &impl Print, text: &[u8], length: usize) -> io::Result<()> {
    rt.write_all(framing::front(text, length))
}

fn write_line(
    rt: &impl Print,
    w: &mut [u32],
    place: u32,
    m: &[u8],
    line: &mut [u8; LINE],
) -> io::Result<()> {
    let n = show_trace::deliver_line(w, place, m, line);
    out(rt, line, n)
}

// Delivers every whole message to the words and writes its line.
fn deliver_all(rt: &impl Print, w: &mut [u32], s: &[u8], line: &mut [u8; LINE]) -> io::Result<()> {
    // The place in the list, which stays at the largest.
    let mut place: u32 = 1;
    for message in framing::messages(s) {
        write_line(rt, w, place, message, line)?;
        place = place.saturating_add(1);
    }
    Ok(())
}

fn trace(rt: &impl Print, s: &[u8], more: bool) -> io::Result<()> {
    let mut w = [0u32; Replica::WORDS];
    let mut line = line_space();
    let end = framing::first_end(s);
    let read = snapshot::read_in(&mut w, framing::front(s, end));
    let n = show_trace::start_lines(refusal::number_of(&read), &w, &mut line);
    out(rt, &line, n)?;
    if read.is_ok() {
        let rest = framing::back(s, end);
        deliver_all(rt, &mut w, rest, &mut line)?;
        if more || framing::counted(rest).cut {
            out(rt, b"cut\n", 4)?;
        }
    }
    Ok(())
}

fn main(rt: HostRuntime) -> io::Result<()> {
    let mut input = input_space();
    let mut stdin = rt.stdin().take(READ as u64);
    let n = io::copy(&mut stdin, &mut Cursor::new(&mut input[..]))? as usize;
    trace(
        &rt,
        framing::front(framing::front(&input, n), INPUT),
        INPUT < n,
    )
}
