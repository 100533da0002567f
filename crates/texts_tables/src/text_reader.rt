// Reading a text: the table that its lines spell, or its first fault. Document 02, E5.
ghost use Rattle.std.specs.Prelude.{◌≡◌, ◌≤◌, length};
ghost use Rattle.notation.specs.Checked.{mapped};
ghost use Rattle.taskfile.specs.Code.Refusals.{outcome};
ghost use Rattle.texts.specs.Reading.{text_read};
ghost use Rattle.texts.specs.TextEntries.{text_room};
ghost use Rattle.texts.specs.TextTables.{table_of};

use crate::line_parts::add_part;
use notation::characters::NEWLINE;
use taskfile::Table;
use taskfile::refusals::{Refusal, Refused};
use taskfile_reader::empty_table;
use texts_reading::line_forms::{Stage, stage_after};
use texts_reading::line_reading::read_line;
use texts_reading::numerals::part_end;

// Reads a text: its table, or the line of its first fault.
pub fn read_text(text: &[u8]) -> Result<Table, Refused<u32>>
    requires { length text.now ≤ text_room }
    ensures { outcome result ≡ mapped table_of (text_read text.now) }
{
    let mut t = empty_table();
    let mut stage = Stage::Window;
    let mut number: u32 = 0;
    let mut from: usize = 0;
    while from < text.len() {
        let to = part_end(text, from, NEWLINE);
        if to == text.len() {
            return Err(Refusal::Line.at(number));
        }
        let line = read_line(&text[from..to], number, stage as u8)?;
        add_part(&mut t, &line);
        stage = stage_after(line.form);
        number += 1;
        from = to + 1;
    }
    if stage < Stage::Tasks {
        return Err(Refusal::Line.at(number));
    }
    Ok(t)
}
