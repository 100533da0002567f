// One line of a text, read: its form by its first word, then its numbers.
ghost use Rattle.std.specs.Prelude.{◌≡◌};
ghost use Rattle.notation.specs.Checked.{mapped};
ghost use Rattle.taskfile.specs.Code.Refusals.{outcome};
ghost use Rattle.texts.specs.Reading.{line_read};
ghost use Rattle.texts.specs.Code.LineParts.{held};
ghost use Rattle.texts_reading.specs.Code.FormReading.{well_shaped};

use crate::line_forms::{field_count, form_named, may_come, numbers_fit};
use crate::numerals::{numerals_past, part_end};
use notation::characters::SPACE;
use taskfile::refusals::{Refusal, Refused};
use texts::{Form, ReadLine};

// Is a line of a form in the grammar, whatever its numbers are? It may come, and as many numerals as it has fields
// stand after its word.
fn is_shaped(form: Form, stage: u8, count: usize) -> bool
    ensures { result ≡ well_shaped stage form count }
{
    may_come(form, stage) && count == field_count(form)
}

// Reads a line with a number, which comes at a stage.
pub fn read_line(line: &[u8], number: u32, stage: u8) -> Result<ReadLine, Refused<u32>>
    ensures { outcome result ≡ mapped held (line_read number stage line.now) }
{
    let end = part_end(line, 0, SPACE);
    let Some(form) = form_named(&line[..end]) else {
        return Err(Refusal::Line.at(number));
    };
    let Ok(read) = numerals_past(line, end) else {
        return Err(Refusal::Line.at(number));
    };
    if !is_shaped(form, stage, read.count) {
        return Err(Refusal::Line.at(number));
    }
    let numbers = read.values;
    if !numbers_fit(form, numbers) {
        return Err(Refusal::Large.at(number));
    }
    Ok(ReadLine { form, numbers })
}
