// Tables to be judged, as rows of text: a count of four digits, a blank, and the sixteen digits of a frame that stands
// so many times.
use crate::case;
use image::Image;
use std::io;

// The bytes of a row, its 0a with them.
const ROW: usize = 22;

// What the title says after its mark and a blank.
fn heading(rt: &impl Print, title: &[u8]) -> io::Result<()> {
    if let [_, _, words @ ..] = title {
        rt.write_all(words)?;
    }
    Ok(())
}

fn label(rt: &impl Print, title: &[u8]) -> io::Result<()> {
    if let [_, _, words @ .., _] = title {
        rt.write_all(b"  ")?;
        rt.write_all(words)?;
    }
    Ok(())
}

fn number(text: &[u8], at: usize, digits: usize) -> u64 {
    hexadecimal::number_at(text, at, digits).unwrap_or(0)
}

// The frame stands so many times from this line on, as far as the table goes; the line after it is answered.
fn put_times(table: &mut [u64], line: usize, frame: u64, count: u64) -> usize {
    let end = table.len().min(line.saturating_add(count as usize));
    if end < line {
        return line;
    }
    table[line..end].fill(frame);
    end
}

// The count of frames that the rows put at the start of the table.
fn put_rows(rows: &[u8], table: &mut [u64]) -> usize {
    let mut frames = 0;
    for row in rows.chunks_exact(ROW) {
        frames = put_times(table, frames, number(row, 5, 16), number(row, 0, 4));
    }
    frames
}

fn judged(rt: &impl Print, title: &[u8], rows: &[u8]) -> io::Result<()> {
    let mut table = [0u64; Image::LINES + 1];
    let frames = put_rows(rows, &mut table);
    label(rt, title)?;
    if let Some(table) = table.get(..frames) {
        case::answer(rt, judge::judge(table))?;
    }
    Ok(())
}

pub fn shown(rt: &impl Print, mark: u8, title: &[u8], rows: &[u8]) -> io::Result<()> {
    if mark == b'-' {
        judged(rt, title, rows)
    } else {
        heading(rt, title)
    }
}
