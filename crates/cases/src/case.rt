// One case: an answer is printed after the case's label.
use image::Verdict;
use std::io;

pub fn heading(rt: &impl Print, words: &[u8]) -> io::Result<()> {
    rt.write_all(words)?;
    rt.write_all(b"\n")
}

// An acceptance comes with a count, a refusal at a line.
pub fn answer(rt: &impl Print, a: Verdict) -> io::Result<()> {
    match a {
        Ok(count) => println!(rt; ": 00 with {count}"),
        Err(r) => {
            let number = r.number();
            let line = r.line();
            println!(rt; ": {number:02x} at {line}")
        }
    }
}

// The number alone; xx where it comes with another count of frames or at another line.
pub fn mark(rt: &impl Print, a: Verdict, frames: usize, line: usize) -> io::Result<()> {
    match a {
        Ok(count) if count == frames => rt.write_all(b" 00"),
        Err(r) if r.line() == line => {
            let number = r.number();
            print!(rt; " {number:02x}")
        }
        _ => rt.write_all(b" xx"),
    }
}
