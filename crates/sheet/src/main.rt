// Reads a clause record from standard input and prints its sheet.
#![tactic(auto)]

use std::io;

fn main(rt: HostRuntime) -> io::Result<()> {
    let mut input = [0u8; sheet_text::INPUT];
    let mut text = [0u8; sheet_text::MEL_ROOM];
    sheet_text::run(
        &mut rt.reader(),
        &mut io::writer(&rt),
        &mut input,
        &mut text,
    )?;
    Ok(())
}
