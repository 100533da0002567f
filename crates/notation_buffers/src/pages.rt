// A page: a lent buffer that is written from its front or from any place on. What it has no room for is left out.
ghost use Rattle.std.specs.Prelude.{◌≡◌, ◌≤◌, [], ◌∷◌, min, length};
ghost use Rattle.notation.specs.Letters.{space, newline};
ghost use Rattle.notation.specs.Texts.{decimal};
ghost use Rattle.notation_buffers.specs.Code.Spaced.{spaced_numbers};

use crate::{write_bytes, write_number};
use notation::characters::{NEWLINE, SPACE};

// A lent buffer, and the place in it of the next byte.
#[derive(Drop)]
pub struct Page<'a> {
    bytes: &'a mut [u8],
    at: usize,
    pub ghost within: { at ≤ length bytes.now },
}

impl<'a> Page<'a> {
    ghost use Rattle.notation_buffers.specs.Code.Pages.{Puts, Clears};

    // A page that begins at the front of a buffer.
    pub fn new(bytes: &'a mut [u8]) -> Page<'a>
        ensures same { result.bytes.ghost_name ≡ bytes.entry.ghost_name }
        ensures holds { result.bytes.now ≡ bytes.old }
        ensures front { result.at ≡ 0 }
    {
        Page { bytes, at: 0 }
    }

    // A page that begins at any place. Past the buffer's end it has room for nothing.
    pub fn starting_at(bytes: &'a mut [u8], at: usize) -> Page<'a>
        ensures same { result.bytes.ghost_name ≡ bytes.entry.ghost_name }
        ensures holds { result.bytes.now ≡ bytes.old }
        ensures place { result.at ≡ min at (length bytes.old) }
    {
        let place = at.min(bytes.len());
        Page { bytes, at: place }
    }

    // The place of the next byte: on a page that began at the front, how many bytes of the buffer have been written.
    pub fn written(&self) -> usize
        ensures counts { result ≡ self.now.at }
        ensures within { result ≤ length self.now.bytes.now }
    {
        self.at
    }

    // Writes a byte.
    pub fn put_byte(&mut self, byte: u8)
        ensures { Puts self.old (byte ∷ []) self.new }
    {
        if self.at < self.bytes.len() {
            self.bytes[self.at] = byte;
            self.at += 1;
        }
    }

    // Writes a word, or as much of it as there is room for.
    pub fn put_word(&mut self, word: &[u8])
        ensures { Puts self.old word.now self.new }
    {
        let room = self.bytes.len() - self.at;
        if word.len() <= room {
            self.bytes[self.at..self.at + word.len()].copy_from_slice(word);
            self.at += word.len();
        } else {
            self.bytes[self.at..].copy_from_slice(&word[..room]);
            self.at += room;
        }
    }

    // Writes a word of any length byte by byte. A copy of so many bytes calls a function that no library here holds.
    pub fn put_letters(&mut self, word: &[u8])
        ensures { Puts self.old word.now self.new }
    {
        let room = self.bytes.len();
        self.at = write_bytes(self.bytes, room, self.at, word);
    }

    // Writes a number in decimal.
    pub fn put_number(&mut self, x: u64)
        ensures { Puts self.old (decimal x) self.new }
    {
        let room = self.bytes.len();
        self.at = write_number(self.bytes, room, self.at, x);
    }

    // Writes a space and a word.
    pub fn then_word(&mut self, word: &[u8])
        ensures { Puts self.old (space ∷ word.now) self.new }
    {
        self.put_byte(SPACE);
        self.put_word(word);
    }

    // Writes a space and a number.
    pub fn then_number(&mut self, x: u64)
        ensures { Puts self.old (space ∷ decimal x) self.new }
    {
        self.put_byte(SPACE);
        self.put_number(x);
    }

    // Writes a space and a byte's number.
    pub fn then_byte(&mut self, x: u8)
        ensures { Puts self.old (space ∷ decimal x) self.new }
    {
        self.then_number(u64::from(x));
    }

    // Writes the numbers of bytes, with a space before each.
    pub fn then_numbers(&mut self, bytes: &[u8])
        ensures { Puts self.old (spaced_numbers bytes.now) self.new }
    {
        for byte in bytes {
            self.then_number(u64::from(*byte));
        }
    }

    // Ends a line.
    pub fn end_line(&mut self)
        ensures { Puts self.old (newline ∷ []) self.new }
    {
        self.put_byte(NEWLINE);
    }

    // Writes zeros up to the end of the buffer, and leaves the place as it is.
    pub fn clear_rest(&mut self)
        ensures { Clears self.old self.new }
    {
        self.bytes[self.at..].fill(0);
    }
}
