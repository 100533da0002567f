// The check program: reads a task file from standard input and prints its sheet. One byte more than a file may have is
// enough to know that it is too long.
#![tactic(auto)]

use notation_buffers::fill_front;
use sheets::SHEET_ROOM;
use sheets_lines::fill_sheet;
use std::io::{self, Write};
use taskfile::limits::BYTES;

const INPUT: usize = BYTES + 1;

fn main(rt: HostRuntime) -> io::Result<()> {
    let mut file = [0u8; INPUT];
    let mut text = [0u8; SHEET_ROOM];
    let got = fill_front(&mut rt.reader(), &mut file)?;
    let x = fill_sheet(&file[..got], &mut text);
    let size = x.length as usize;
    io::writer(&rt).write_all(&text[..size])
}
