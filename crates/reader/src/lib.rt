// The text of a design image read into a table.
#![tactic(auto)]

ghost use Rattle.std.specs.Prelude.{◌≡◌, ◌≤◌, length};
ghost use Rattle.std.proofs.lemmas.List.Edits.{sets};
ghost use Rattle.image.specs.Judge.{said};
ghost use Rattle.lines.specs.Text.{line_at, settled, outcome, read_as, reading};
ghost use Rattle.reader.specs.Steps.{Decoded};

use image::{Image, Refusal, Verdict};

// The number of the line that begins at byte at.
#[tactic(auto, using(lines::proofs::Lines::line_laws))]
fn line_at(bytes: &[u8], at: usize) -> Option<u64>
    requires { at ≤ length bytes.now }
    ensures { result ≡ line_at bytes.now at }
{
    if bytes.len() - at < 17 || bytes[at + 16] != b'\n' {
        return None;
    }
    hexadecimal::number_at(bytes, at, 16)
}

// The frames of the lines, up to the first malformed one: their count.
fn decode_lines(bytes: &[u8], words: &mut [u64]) -> usize
    ensures { Decoded bytes.now words.new result }
{
    for (i, word) in words.iter_mut().enumerate() {
        let Some(x) = line_at(bytes, 17 * i) else {
            return i;
        };
        *word = x;
    }
    words.len()
}

// The judge's verdict over the lines read, where bytes are left after them.
#[tactic(auto, unfolding(lines::specs::Text::settled))]
fn settle(v: Verdict, left: bool) -> Verdict
    ensures { said result ≡ settled left (said v) }
{
    match v {
        Ok(n) if left => Err(Refusal::Extra(n)),
        Err(Refusal::Short(n)) if left => Err(Refusal::Line(n)),
        _ => v,
    }
}

fn copy(from: &[u64], to: &mut [u64])
    requires { length from.now ≤ length to.old }
    ensures { to.new ≡ sets to.old 0 from.now }
{
    to[..from.len()].copy_from_slice(from);
}

// The lines go to the table's start where the verdict is 0.
#[tactic(auto, using(laws::specs::Lists::stored))]
fn fill(v: Verdict, lines: &[u64], table: &mut [u64]) -> Verdict
    requires { length lines.now ≤ length table.old }
    ensures { outcome (said result) table.new ≡ read_as (said v) lines.now table.old }
{
    let n = v?;
    copy(lines, table);
    Ok(n)
}

// Reads an image's lines into a table. They go to a table of its own first, so that a refusal changes nothing.
#[tactic(auto, using(crate::proofs::Whole::read_laws))]
pub fn read(bytes: &[u8], table: &mut [u64]) -> Verdict
    ensures { outcome (said result) table.new ≡ reading bytes.now table.old }
{
    if table.len() < Image::LINES {
        return Err(Refusal::Room);
    }
    let mut words = [0u64; Image::LINES];
    let n = decode_lines(bytes, &mut words);
    let lines = &words[..n];
    fill(
        settle(judge::judge(lines), 17 * n < bytes.len()),
        lines,
        table,
    )
}
