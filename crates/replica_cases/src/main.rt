// Runs the worked cases of paper 01 that are not proved as theorems: a full name table, and the largest version.
#![tactic(auto)]

use refusal::number_of;
use replica::{Answer, Delivery, Replica};
use std::io;
use wire_draft::{EntryGiven, Written};
use wire_entry::EntryBlock;
use wire_read::DestroyPlayer;

// A line: what was delivered, and the answer.
fn show(rt: &impl Print, what: &str, answer: Answer) -> io::Result<()> {
    match answer {
        Err(refusal) => {
            let no = refusal.number();
            println!(rt; "{what}: refused {no}")
        }
        Ok(Delivery::Pending) => println!(rt; "{what}: pending"),
        Ok(Delivery::Applied { passed, noops }) => {
            println!(rt; "{what}: applied {passed} no-ops {noops}")
        }
    }
}

fn deliver(w: &mut [u32], buf: &[u8], written: Written) -> Answer {
    let n = written?;
    if buf.len() < n {
        return replica::deliver_in(w, buf);
    }
    replica::deliver_in(w, &buf[0..n])
}

fn add(w: &mut [u32], version: u32, id: u32) -> Answer {
    let values = EntryBlock {
        dpnid: id,
        owner: 0,
        flags: 0,
        version,
        dnet_version: 7,
    };
    let none = EntryGiven {
        name: false,
        data: false,
        url: false,
    };
    let mut buf = [0u8; 64];
    let written = wire_write::write_add_player(&mut buf, values, none, b"", b"", b"");
    deliver(w, &buf, written)
}

fn destroy(w: &mut [u32], version: u32, id: u32) -> Answer {
    let values = DestroyPlayer {
        dpnid: id,
        version,
        reason: 1,
    };
    let mut buf = [0u8; 64];
    let written = wire_write::write_destroy_player(&mut buf, values);
    deliver(w, &buf, written)
}

// Players 1 to n, each added under its own number.
fn fill(w: &mut [u32], n: u32) {
    for i in 0..n {
        let _ = add(w, i + 1, i + 1);
    }
}

// A 65th entry is a no-op; after one player has left the next fits.
fn full_table(rt: &impl Print) -> io::Result<()> {
    let mut w = [0u32; Replica::WORDS];
    fill(&mut w, 64);
    show(rt, "65th entry", add(&mut w, 65, 65))?;
    show(rt, "player 1 leaves", destroy(&mut w, 66, 1))?;
    show(rt, "next entry", add(&mut w, 67, 65))?;
    let entries = table_words::entry_count(&w);
    println!(rt; "entries {entries}")
}

// At the largest version every operation is 14.
fn largest_version(rt: &impl Print) -> io::Result<()> {
    let saved = [0u8, 0, 0, 11, 1, 255, 255, 255, 255, 0, 0, 0, 0, 0, 0];
    let mut w = [0u32; Replica::WORDS];
    let number = number_of(&snapshot::read_in(&mut w, &saved));
    println!(rt; "largest version: read {number}")?;
    show(rt, "version 0", add(&mut w, 0, 9))?;
    show(rt, "version 1", destroy(&mut w, 1, 9))?;
    show(rt, "version 4294967295", add(&mut w, 4294967295, 9))
}

fn main(rt: HostRuntime) -> io::Result<()> {
    full_table(&rt)?;
    largest_version(&rt)
}
