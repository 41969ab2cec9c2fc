// One case: a text is read or written, and the answer is printed after the case's label.
use crate::largest;
use cases::case;
use image::{Image, Verdict};
use std::io;

fn say(rt: &impl Print, label: &[u8], a: Verdict) -> io::Result<()> {
    rt.write_all(b"  ")?;
    rt.write_all(label)?;
    case::answer(rt, a)
}

// A table of so many words is lent.
pub fn read_to(rt: &impl Print, label: &[u8], text: &[u8], words: usize) -> io::Result<()> {
    let mut table = [0u64; Image::LINES + 1];
    if table.len() < words {
        return Ok(());
    }
    say(rt, label, reader::read(text, &mut table[..words]))
}

pub fn read(rt: &impl Print, label: &[u8], text: &[u8]) -> io::Result<()> {
    read_to(rt, label, text, Image::LINES)
}

fn first_read_to(
    rt: &impl Print,
    label: &[u8],
    text: &[u8],
    bytes: usize,
    words: usize,
) -> io::Result<()> {
    if text.len() < bytes {
        return Ok(());
    }
    read_to(rt, label, &text[..bytes], words)
}

pub fn largest_read_to(rt: &impl Print, label: &[u8], words: usize) -> io::Result<()> {
    let text = largest::lines();
    first_read_to(rt, label, &text, 17 * Image::LINES, words)
}

// The first bytes of the largest image's lines and of what stands behind them.
pub fn first_bytes(rt: &impl Print, label: &[u8], bytes: usize) -> io::Result<()> {
    let text = largest::lines();
    first_read_to(rt, label, &text, bytes, Image::LINES)
}

// The largest image's lines with one byte changed.
pub fn changed_byte(rt: &impl Print, label: &[u8], at: usize, byte: u8) -> io::Result<()> {
    let mut text = largest::lines();
    slots::put(&mut text, at, byte);
    first_read_to(rt, label, &text, 17 * Image::LINES, Image::LINES)
}

// A buffer of so many bytes is lent.
pub fn written_to(rt: &impl Print, label: &[u8], table: &[u64], bytes: usize) -> io::Result<()> {
    let mut text = [0u8; 17 * Image::LINES];
    if text.len() < bytes {
        return Ok(());
    }
    say(rt, label, writer::write(table, &mut text[..bytes]))
}

fn first_written_to(
    rt: &impl Print,
    label: &[u8],
    table: &[u64],
    frames: usize,
    bytes: usize,
) -> io::Result<()> {
    if table.len() < frames {
        return Ok(());
    }
    written_to(rt, label, &table[..frames], bytes)
}

pub fn largest_written_to(rt: &impl Print, label: &[u8], bytes: usize) -> io::Result<()> {
    let table = largest::frames();
    first_written_to(rt, label, &table, Image::LINES, bytes)
}
