// Every byte at one place of a small text, and every start of it.
use cases::case;
use image::{Image, Verdict};
use std::io;

// The smallest image, which is a header with one cell and a main of length 0, and after its 34 bytes one line more.
fn small_text() -> [u8; 51] {
    let mut text = [b'0'; 51];
    let _ = writer::write(&[0xa000_0000_0000_0001, 0xa100_0000_0000_0000], &mut text);
    slots::put(&mut text, 50, 0x0a);
    text
}

fn first_read(text: &[u8], bytes: usize) -> Verdict {
    let mut table = [0u64; Image::LINES];
    if bytes <= text.len() {
        return reader::read(&text[..bytes], &mut table);
    }
    reader::read(text, &mut table)
}

fn retyped(at: usize, byte: u8) -> Verdict {
    let mut text = small_text();
    slots::put(&mut text, at, byte);
    first_read(&text, 34)
}

fn sixteen_bytes(rt: &impl Print, at: usize, line: usize, first: u8) -> io::Result<()> {
    for low in 0..16 {
        case::mark(rt, retyped(at, first | low), 2, line)?;
    }
    Ok(())
}

fn byte_row(rt: &impl Print, at: usize, line: usize, first: u8) -> io::Result<()> {
    print!(rt; "  {first:02x}:")?;
    sixteen_bytes(rt, at, line, first)?;
    rt.write_all(b"\n")
}

// The smallest image with every byte in turn at one place of a line.
pub fn every_byte(rt: &impl Print, at: usize, line: usize) -> io::Result<()> {
    for high in 0..16 {
        byte_row(rt, at, line, high << 4)?;
    }
    Ok(())
}

fn start(rt: &impl Print, bytes: usize) -> io::Result<()> {
    let text = small_text();
    print!(rt; "  {bytes}")?;
    case::answer(rt, first_read(&text, bytes))
}

// The first bytes of the text, from none to all.
pub fn every_start(rt: &impl Print) -> io::Result<()> {
    for bytes in 0..52 {
        start(rt, bytes)?;
    }
    Ok(())
}
