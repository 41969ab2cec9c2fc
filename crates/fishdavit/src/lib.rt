// The C interface: judge, read, write and run on numbers and slices. include/fishdavit.h declares it.
#![tactic(auto)]

ghost use Rattle.std.specs.Prelude.{◌≡◌};
ghost use Rattle.image.specs.Judge.{said, judged};
ghost use Rattle.lines.specs.Text.{outcome, reading, writing};
ghost use Rattle.kernel.specs.Run.{asked};
ghost use Rattle.answer.specs.Answer.{said as ran_to};
ghost use Rattle.fishdavit.specs.Plain.{plain, Small};

use answer::Answer;
use image::{Says, Verdict};

// Document 01's number, and the line of the first fault or the count that was done.
#[repr(C)]
#[derive(Clone, Copy, Debug, PartialEq, Eq)]
pub struct FishdavitVerdict {
    pub number: u32,
    pub line: u32,
}

// A `From` could not require that the line or count fits.
fn told(v: Verdict) -> FishdavitVerdict
    requires { Small (said v) }
    ensures { plain result ≡ said v }
{
    FishdavitVerdict {
        number: v.number() as u32,
        line: v.line() as u32,
    }
}

#[unsafe(no_mangle)]
pub extern "C" fn fishdavit_judge(table: &[u64]) -> FishdavitVerdict
    ensures { plain result ≡ judged table.now }
{
    told(judge::judge(table))
}

#[unsafe(no_mangle)]
pub extern "C" fn fishdavit_read(bytes: &[u8], table: &mut [u64]) -> FishdavitVerdict
    ensures { outcome (plain result) table.new ≡ reading bytes.now table.old }
{
    told(reader::read(bytes, table))
}

#[unsafe(no_mangle)]
pub extern "C" fn fishdavit_write(table: &[u64], bytes: &mut [u8]) -> FishdavitVerdict
    ensures { outcome (plain result) bytes.new ≡ writing table.now bytes.old }
{
    told(writer::write(table, bytes))
}

#[unsafe(no_mangle)]
pub extern "C" fn fishdavit_run(
    table: &[u64],
    choices: &[u8],
    inputs: &[u32],
    budget: u32,
    cells: &mut [u32],
) -> Answer
    ensures { record { answer = ran_to result; cells = cells.new } ≡ asked (record { table = table.entry.now; choices = choices.now; inputs = inputs.now; budget = budget }) cells.old }
{
    run::run(table, choices, inputs, budget, cells)
}
