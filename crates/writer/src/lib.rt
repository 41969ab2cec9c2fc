// The text of a design image written from a table.
#![tactic(auto)]

ghost use Rattle.std.specs.Prelude.{◌≡◌, ◌+◌, ◌*◌, ◌≤◌, length};
ghost use Rattle.std.proofs.lemmas.List.Edits.{sets};
ghost use Rattle.image.specs.Judge.{said};
ghost use Rattle.lines.specs.Text.{outcome, line, text, writing};

use image::{Refusal, Verdict};

// Writes the line of f from byte at on.
fn put_line(f: u64, bytes: &mut [u8], at: usize)
    requires { at + 17 ≤ length bytes.old }
    ensures { bytes.new ≡ sets bytes.old at (line f) }
{
    hexadecimal::write_at(f, 16, bytes, at);
    bytes[at + 16] = b'\n';
}

// Writes the lines of a table.
fn put_lines(table: &[u64], bytes: &mut [u8])
    requires { 17 * length table.now ≤ length bytes.old }
    ensures { bytes.new ≡ sets bytes.old 0 (text table.now) }
{
    for (i, &frame) in table.iter().enumerate() {
        put_line(frame, bytes, 17 * i);
    }
}

// Writes a table as an image's lines.
#[tactic(auto, using(crate::proofs::Whole::write_refused))]
pub fn write(table: &[u64], bytes: &mut [u8]) -> Verdict
    ensures { outcome (said result) bytes.new ≡ writing table.now bytes.old }
{
    judge::judge(table)?;
    if bytes.len() / 17 < table.len() {
        return Err(Refusal::Room);
    }
    put_lines(table, bytes);
    Ok(17 * table.len())
}
