// Runs cases on the judge, the reader and the writer of design images (crates `cases` and `text_cases`), and on the whole program. A job is printed with the
// whole answer of the program. Tables and jobs come from the file stdin; the file stdout says what must come out.
#![tactic(auto)]

mod jobs;

use std::io;

fn main(rt: HostRuntime) -> io::Result<()> {
    cases::instructions::every_op_by_body(&rt)?;
    cases::instructions::every_field(&rt)?;
    text_cases::texts::lines(&rt)?;
    text_cases::texts::starts(&rt)?;
    text_cases::texts::room(&rt)?;
    jobs::answers(&rt)
}
