// The judge, which finds the first fault of a table of frames.
#![tactic(auto)]

ghost use Rattle.std.specs.Prelude.{◌≡◌, ◌+◌, ◌<◌, ◌≤◌, IfOk, IfErr, length};
ghost use Rattle.image.specs.Layout.{frame, counts_of, kind_of};
ghost use Rattle.image.specs.declared.Refusal.TheVariants.{Short};
ghost use Rattle.image.specs.Judge.{said, header_fits, body_fits, rest, judged};
ghost use Rattle.judge.specs.Steps.{Passed, Begun, Headed, Stands};

use frame::{Counts, Fault, Frame, Kind};
use image::{Image, Refusal, Verdict};

// The counts of a header. No `From`: only a header's fields are counts.
fn counts_of(f: Frame) -> Counts
    ensures { result ≡ counts_of f }
{
    Counts {
        threads: f.d,
        events: f.a,
        updates: f.b,
        cells: f.imm,
    }
}

#[tactic(auto, unfolding(image::specs::Judge::header_fits))]
fn header_fits(f: Frame) -> bool
    ensures { result ≡ header_fits f }
{
    f.op == 0xa0
        && f.d <= Image::THREADS
        && f.a <= Image::EVENTS
        && f.b <= Image::UPDATES
        && (1..=Image::CELLS).contains(&f.imm)
}

#[tactic(auto, unfolding(image::specs::Judge::body_fits))]
fn body_fits(f: Frame) -> bool
    ensures { result ≡ body_fits f }
{
    f.op == 0xa1 && f.d == 0 && f.a == 0 && f.b == 0
}

// The frame on a line that is due.
fn frame_at(table: &[u64], line: usize) -> Result<Frame, Refusal>
    ensures there { IfOk result (λ f. (line < length table.now) × (f ≡ frame table.now line)) }
    ensures short { IfErr result (λ r. (length table.now ≤ line) × (r ≡ Short line)) }
{
    let &word = table.get(line).ok_or(Refusal::Short(line))?;
    Ok(Frame::from(word))
}

// The kind of body k.
#[tactic(auto, using(crate::proofs::Frames::kind_laws))]
fn kind_of(c: Counts, k: usize) -> Kind
    ensures { result ≡ kind_of c k }
{
    if k == 0 {
        Kind::Main
    } else if k - 1 < c.threads as usize {
        Kind::Thread
    } else {
        Kind::Update
    }
}

// The n instructions of body k, from the line at on.
#[tactic(auto, using(crate::proofs::Loops::body_laws))]
fn judge_body(table: &[u64], c: Counts, k: usize, n: u32, at: usize) -> Result<(), Refusal>
    requires { Stands table.now c k n at }
    ensures { Passed table.now at n result }
{
    let kind = kind_of(c, k);
    for line in at..at + n as usize {
        let f = frame_at(table, line)?;
        // A match, since with `map_err` and a closure the facts of the two refusals did not come through.
        match fault::fault_of(c, kind, n, f) {
            Ok(()) => {}
            Err(Fault::Op) => return Err(Refusal::Op(line)),
            Err(Fault::Field) => return Err(Refusal::Field(line)),
        }
    }
    Ok(())
}

// The instructions of all bodies, and the table's end.
#[tactic(auto, using(crate::proofs::Loops::table_laws))]
fn judge_instructions(table: &[u64], c: Counts, bodies: usize) -> Verdict
    requires { Headed table.now c bodies }
    ensures { said result ≡ rest table.now (1 + bodies) }
{
    let mut line = 1 + bodies;
    for (k, &head) in table[1..line].iter().enumerate() {
        let n = Frame::from(head).imm;
        judge_body(table, c, k, n, line)?;
        line += n as usize;
    }
    if line < table.len() {
        return Err(Refusal::Extra(line));
    }
    Ok(line)
}

// The body frames, and all that follows.
#[tactic(auto, using(crate::proofs::Loops::heads_laws))]
fn judge_bodies(table: &[u64], c: Counts) -> Verdict
    requires { Begun table.now c }
    ensures { said result ≡ rest table.now 1 }
{
    let bodies = 1 + c.threads as usize + c.updates as usize;
    let mut total: usize = 0;
    for line in 1..1 + bodies {
        let head = frame_at(table, line)?;
        total += head.imm as usize;
        if !body_fits(head) || Image::INSTRUCTIONS < total {
            return Err(Refusal::Body(line));
        }
    }
    judge_instructions(table, c, bodies)
}

// The first fault of a table, or the count of its frames.
#[tactic(auto, using(crate::proofs::Loops::judge_laws))]
pub fn judge(table: &[u64]) -> Verdict
    ensures { said result ≡ judged table.now }
{
    let header = frame_at(table, 0)?;
    if !header_fits(header) {
        return Err(Refusal::Header);
    }
    judge_bodies(table, counts_of(header))
}
