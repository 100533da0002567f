// Both conversions, of a file to its text and of a text to its file. Document 02, E5.
#![tactic(auto)]

ghost use Rattle.std.specs.Prelude.{◌≡◌, ◌<◌, length as count};
ghost use Rattle.notation.specs.Checked.{mapped};
ghost use Rattle.taskfile.specs.Code.Refusals.{outcome};
ghost use Rattle.texts.specs.TextEntries.{line_of_record, to_file_answer, to_file_after};
ghost use Rattle.texts.specs.TextEntries.{texted, to_text_answer, to_text_after};

use taskfile::refusals::{Refusal, Refused};
use texts::TEXT_ROOM;
use texts_lines::all_lines::put_text;
use texts_tables::text_reader::read_text;
use timing_acceptance::entries::accept_file;
use writer::WriteAnswer;
use writer_entries::{answered, refused, write_table};

// Writes a file's text, and answers its length.
pub fn write_text(file: &[u8], text: &mut [u8]) -> Result<u32, Refused<u8>>
    ensures answer { outcome result ≡ mapped count (texted file.now text.old) }
    ensures written { text.new ≡ to_text_after file.now text.old }
{
    let accepted = accept_file(file)?;
    if text.len() < TEXT_ROOM {
        return Err(Refusal::Room.at(0));
    }
    let n = put_text(accepted.table, text);
    Ok(n as u32)
}

// A file's text.
pub fn file_to_text(file: &[u8], text: &mut [u8]) -> WriteAnswer
    ensures answer { result ≡ to_text_answer file.now text.old }
    ensures written { text.new ≡ to_text_after file.now text.old }
{
    answered(write_text(file, text))
}

// The answer with its place led from a record to its line: two lines stand for the header.
pub fn at_line(x: WriteAnswer) -> WriteAnswer
    requires { x.place < 256 }
    ensures { result ≡ record { number = x.number; place = line_of_record x.place; length = x.length } }
{
    if x.place == 0 {
        return x;
    }
    WriteAnswer {
        number: x.number,
        place: x.place + 1,
        length: x.length,
    }
}

// A text's file.
pub fn text_to_file(text: &[u8], file: &mut [u8]) -> WriteAnswer
    ensures answer { result ≡ to_file_answer text.now file.old }
    ensures written { file.new ≡ to_file_after text.now file.old }
{
    if text.len() > TEXT_ROOM {
        return refused(Refusal::Long.at(0));
    }
    match read_text(text) {
        Ok(t) => at_line(write_table(t, file)),
        Err(e) => refused(e),
    }
}
