// Reads one message from standard input, shows every value and field of a connect info message, and writes it again from these.
#![tactic(auto)]

use std::io;
use std::io::{Cursor, Read};
use wire_connect::{ConnectInfo, Guid};
use wire_draft::ConnectInfoGiven;
use wire_field::{FieldName, Fields, Form};
use wire_read::Message;

// It takes as many bytes of input, and writes the message again into as many.
const SPACE: usize = 65536;

// A line of a word and a number.
fn line(rt: &impl Print, word: &[u8], n: u64) -> io::Result<()> {
    rt.write_all(word)?;
    println!(rt; " {n}")
}

const DIGITS: [u8; 16] = *b"0123456789ABCDEF";

// Bytes by their digits, which are most of what is shown: `print!` with a format took 1.6 times the time.
fn hex(rt: &impl Print, s: &[u8]) -> io::Result<()> {
    for byte in s {
        let at = *byte as usize;
        rt.write_all(&[b' ', DIGITS[at / 16], DIGITS[at % 16]])?;
    }
    println!(rt)
}

fn guid(rt: &impl Print, word: &[u8], g: Guid) -> io::Result<()> {
    rt.write_all(word)?;
    let bytes = g.bytes();
    hex(rt, &bytes)
}

// How many characters a text has; nothing of a field that is none.
fn characters(rt: &impl Print, name: FieldName, n: u32) -> io::Result<()> {
    match wire_field::form_of(name) {
        Form::Free => Ok(()),
        _ => print!(rt; " characters {n}"),
    }
}

fn field(
    rt: &impl Print,
    word: &[u8],
    m: &[u8],
    fields: Fields,
    name: FieldName,
) -> io::Result<()> {
    rt.write_all(word)?;
    match fields.named(name) {
        None => rt.write_all(b" absent\n"),
        Some(span) => {
            let start = span.start.0;
            let size = span.size;
            print!(rt; " at {start} size {size}")?;
            characters(rt, name, span.characters)?;
            rt.write_all(b":")?;
            hex(rt, wire_read::field(m, name))
        }
    }
}

fn fields(rt: &impl Print, m: &[u8], fs: Fields) -> io::Result<()> {
    field(rt, b"name", m, fs, FieldName::Name)?;
    field(rt, b"data", m, fs, FieldName::Data)?;
    field(rt, b"password", m, fs, FieldName::Password)?;
    field(rt, b"connect data", m, fs, FieldName::ConnectData)?;
    field(rt, b"url", m, fs, FieldName::Url)?;
    field(rt, b"alternate address", m, fs, FieldName::AlternateAddress)
}

// Which fields a message has.
fn given(fs: Fields) -> ConnectInfoGiven {
    ConnectInfoGiven {
        name: fs.name.is_some(),
        data: fs.data.is_some(),
        password: fs.password.is_some(),
        connect_data: fs.connect_data.is_some(),
        url: fs.url.is_some(),
        alternate_address: fs.alternate_address.is_some(),
    }
}

// The message written from its values and fields.
fn write_again(rt: &impl Print, m: &[u8], values: ConnectInfo, fs: Fields) -> io::Result<()> {
    let mut buf = [0u8; SPACE];
    let written = wire_write::write_connect_info(
        &mut buf,
        values,
        given(fs),
        wire_read::field(m, FieldName::Name),
        wire_read::field(m, FieldName::Data),
        wire_read::field(m, FieldName::Password),
        wire_read::field(m, FieldName::ConnectData),
        wire_read::field(m, FieldName::Url),
        wire_read::field(m, FieldName::AlternateAddress),
    );
    match written {
        Err(refusal) => line(rt, b"not written", refusal.number() as u64),
        Ok(n) => {
            rt.write_all(b"written")?;
            if n <= buf.len() {
                hex(rt, &buf[0..n])?;
            }
            Ok(())
        }
    }
}

fn show_connect_info(rt: &impl Print, m: &[u8], values: ConnectInfo, fs: Fields) -> io::Result<()> {
    line(rt, b"connect info of bytes", m.len() as u64)?;
    line(rt, b"flags", values.flags as u64)?;
    line(rt, b"dnet version", values.dnet_version as u64)?;
    guid(rt, b"instance", values.instance)?;
    guid(rt, b"application", values.application)?;
    fields(rt, m, fs)?;
    write_again(rt, m, values, fs)
}

fn show_said(rt: &impl Print, m: &[u8], message: Message, fs: Fields) -> io::Result<()> {
    match message {
        Message::ConnectInfo(values) => show_connect_info(rt, m, values, fs),
        _ => line(rt, b"number", 0),
    }
}

fn show(rt: &impl Print, m: &[u8]) -> io::Result<()> {
    match wire_read::read(m) {
        Ok(read) => show_said(rt, m, read.message, read.fields),
        Err(refusal) => line(rt, b"number", refusal.number() as u64),
    }
}

fn main(rt: HostRuntime) -> io::Result<()> {
    let mut buf = [0u8; SPACE];
    let mut stdin = rt.stdin().take(SPACE as u64);
    let n = io::copy(&mut stdin, &mut Cursor::new(&mut buf[..]))? as usize;
    show(&rt, &buf[..n.min(SPACE)])
}
