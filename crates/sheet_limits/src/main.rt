// Prints the sheets of records at the limits: one of each refusal, one without a form, the longest and one byte more, a full input array and more
// than that, and MEL texts of 32,768 and 32,769 bytes.
#![tactic(auto)]

use std::rt::Files;
use std::{fs, io};

const RECORDS: [&str; 20] = [
    "refused-1.lfj",
    "refused-2.lfj",
    "refused-3.lfj",
    "refused-4.lfj",
    "refused-5.lfj",
    "refused-6.lfj",
    "refused-7.lfj",
    "refused-8.lfj",
    "refused-9.lfj",
    "refused-10.lfj",
    "refused-11.lfj",
    "refused-18.lfj",
    "refused-19.lfj",
    "no-form.lfj",
    "longest.lfj",
    "longest-and-one.lfj",
    "full.lfj",
    "beyond.lfj",
    "mel-at-limit.lfj",
    "mel-past-limit.lfj",
];

// Prints the sheet of the record in the file of this name.
fn print_sheet(rt: &(impl Files + Print), name: &str) -> io::Result<()> {
    let mut input = [0u8; sheet_text::INPUT];
    let mut text = [0u8; sheet_text::MEL_ROOM];
    let mut file = fs::open(rt, name)?;
    sheet_text::run(&mut file, &mut io::writer(rt), &mut input, &mut text)?;
    Ok(())
}

fn main(rt: HostRuntime) -> io::Result<()> {
    for name in RECORDS {
        print_sheet(&rt, name)?;
    }
    Ok(())
}
