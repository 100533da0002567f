// The parts of a text between separators, and the numerals among a line's words.
ghost use Rattle.std.specs.Prelude.{◌≡◌, ◌+◌, ◌-◌, ◌^◌, ◌≤◌, ◌<◌, min, length, set};
ghost use Rattle.notation.specs.Lists.{all, same};
ghost use Rattle.texts.specs.Grammar.{wide_field};
ghost use Rattle.texts.specs.Reading.{is_digit, is_numeral, value_of};
ghost use Rattle.texts.specs.Code.LineParts.{part_end, words_past, capped_value, numeral_of, numerals_of};
ghost use Rattle.texts_reading.specs.Code.NumeralParts.{PartEnds};

use notation::characters::{SPACE, ZERO};
use texts::{NUMBERS, Numerals};

const TEN: u64 = 10;

// The lowest number that fits no field.
const CAP: u64 = 4294967296;

// Where the part of a text from a byte on ends: at the next separator, or where the text ends.
pub fn part_end(text: &[u8], from: usize, separator: u8) -> usize
    requires { from ≤ length text.now }
    ensures end { result ≡ part_end separator text.now from }
    ensures within { (from ≤ result) × (result ≤ length text.now) }
{
    match text[from..].iter().position(|byte| *byte == separator) {
        Some(size) => from + size,
        None => text.len(),
    }
}

// Are two words the same?
pub fn is_word(word: &[u8], name: &[u8]) -> bool
    ensures { result ≡ same name.now word.now }
{
    word == name
}

// Are all bytes of a word digits?
fn all_digits(word: &[u8]) -> bool
    ensures { result ≡ all is_digit word.now }
{
    word.iter().all(|byte| byte.is_ascii_digit())
}

// Is a word a numeral: digits, at least one, and no leading zero?
pub fn is_numeral(word: &[u8]) -> bool
    ensures { result ≡ is_numeral word.now }
{
    word.len() != 0 && all_digits(word) && (word[0] != ZERO || word.len() == 1)
}

// The number that a digit is.
fn digit_value(byte: u8) -> u64
    ensures { (result ≡ byte - 48) × (result < 256) }
{
    u64::from(byte.saturating_sub(ZERO))
}

// A number, or the cap if that is less.
fn capped(value: u64) -> u64
    ensures { result ≡ min wide_field value }
{
    value.min(CAP)
}

// The number that digits are, or the cap if that is less: whatever their number, no sum wraps.
fn value_of(word: &[u8]) -> u64
    ensures { result ≡ min wide_field (value_of word.now) }
{
    let mut value: u64 = 0;
    for byte in word {
        value = capped(TEN * value + digit_value(*byte));
    }
    value
}

// A numeral's value, or the cap if that is less.
pub fn numeral_of(word: &[u8]) -> Option<u64>
    ensures { result ≡ numeral_of word.now }
{
    if is_numeral(word) {
        Some(value_of(word))
    } else {
        None
    }
}

// A numeral's value, or the cap if that is less, and 0 for a word that is no numeral.
pub fn capped_value(word: &[u8]) -> u64
    ensures { result ≡ capped_value word.now }
{
    numeral_of(word).unwrap_or(0)
}

// The numerals that were read and the value of one word more. Past the eighth it is not kept.
fn with_numeral(mut read: Numerals, value: u64) -> Numerals
    requires { read.count + 1 < 2 ^ 64 }
    ensures { result ≡ record { count = read.count + 1; values = set read.values read.count value } }
{
    if read.count < NUMBERS {
        read.values[read.count] = value;
    }
    read.count += 1;
    read
}

// The numerals of a line after the word that ends at a byte. Where a word there is no numeral, the error is what was
// read of all of them, with 0 for such a word.
pub fn numerals_past(line: &[u8], from: usize) -> Result<Numerals, Numerals>
    requires { PartEnds 32 line.now from }
    ensures { result ≡ numerals_of (words_past line.now from) }
{
    let mut good = true;
    let mut read = Numerals {
        count: 0,
        values: [0; NUMBERS],
    };
    let mut at = from;
    while at < line.len() {
        let start = at + 1;
        at = part_end(line, start, SPACE);
        let value = numeral_of(&line[start..at]);
        good = good && value.is_some();
        read = with_numeral(read, value.unwrap_or(0));
    }
    if good { Ok(read) } else { Err(read) }
}
