// The program that turns a task file into its text, and a text into its file: it reads one from standard input and
// prints the other, or the line of a refusal. One byte more than a text may have is enough to know that it is too long.
#![tactic(auto)]

ghost use Rattle.std.specs.Prelude.{◌≡◌, ◌≤◌, length, take};
ghost use Rattle.texts.specs.TextEntries.{text_room};
ghost use Rattle.texts.specs.Turned.{begins_text, turned};
ghost use Rattle.texts_program.specs.Code.Conversions.{ConvertedAs};

use notation_buffers::fill_front;
use notation_buffers::pages::Page;
use sheets_printing::lines::put_refused;
use std::io::{self, Write};
use texts::TEXT_ROOM;
use texts_entries::{file_to_text, text_to_file};
use writer::WriteAnswer;

const INPUT: usize = TEXT_ROOM + 1;

// The first letter of `window`.
const FIRST_LETTER: u8 = b'w';

// Is this a text, and not a file?
fn begins_text(bytes: &[u8]) -> bool
    ensures { result ≡ begins_text bytes.now }
{
    !bytes.is_empty() && bytes[0] == FIRST_LETTER
}

// A text's file, or a file's text.
fn convert(bytes: &[u8], out: &mut [u8]) -> WriteAnswer
    ensures { ConvertedAs bytes.now out.old result out.new }
{
    if begins_text(bytes) {
        text_to_file(bytes, out)
    } else {
        file_to_text(bytes, out)
    }
}

// Puts what is to be printed at the front of the room, and answers how many bytes that is.
fn turn(bytes: &[u8], out: &mut [u8]) -> usize
    requires { text_room ≤ length out.old }
    ensures printed { take result out.new ≡ turned bytes.now out.old }
    ensures within { result ≤ length out.new }
{
    let x = convert(bytes, out);
    if x.number != 0 {
        let mut page = Page::new(out);
        put_refused(&mut page, u64::from(x.number), u64::from(x.place));
        return page.written();
    }
    x.length as usize
}

fn main(rt: HostRuntime) -> io::Result<()> {
    let mut input = [0u8; INPUT];
    let mut output = [0u8; TEXT_ROOM];
    let got = fill_front(&mut rt.reader(), &mut input)?;
    let size = turn(&input[..got], &mut output);
    io::writer(&rt).write_all(&output[..size])
}
