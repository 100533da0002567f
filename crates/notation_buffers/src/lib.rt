// Lent buffers: pages, bytes written into the room at a buffer's front, and bytes read.
#![tactic(auto)]

ghost use Rattle.std.specs.Prelude.{◌≡◌, ◌≤◌, [], ◌∷◌, length, IfOk};
ghost use Rattle.notation.specs.Texts.{decimal};
ghost use Rattle.notation_buffers.specs.Code.Writing.{Appends, cleared_from};

use notation::characters::ZERO;
use std::io::{self, ErrorKind, Read};

pub mod pages;

// Writes a byte at a place of the room, and answers the next place. Past the room nothing is written.
pub fn write_byte(out: &mut [u8], room: usize, at: usize, byte: u8) -> usize
    requires { room ≤ length out.old }
    ensures { Appends room out.old at (byte ∷ []) out.new result }
{
    if room <= at {
        return at;
    }
    out[at] = byte;
    at + 1
}

// Writes bytes one after the other from a place of the room on, and answers the next place.
pub fn write_bytes(out: &mut [u8], room: usize, at: usize, bytes: &[u8]) -> usize
    requires { room ≤ length out.old }
    ensures { Appends room out.old at bytes.now out.new result }
{
    let mut next = at;
    for byte in bytes {
        next = write_byte(out, room, next, *byte);
    }
    next
}

// Writes a number in decimal from a place of the room on, and answers the next place.
pub fn write_number(out: &mut [u8], room: usize, at: usize, x: u64) -> usize
    requires { room ≤ length out.old }
    ensures { Appends room out.old at (decimal x) out.new result }
{
    let last = ZERO + (x % 10) as u8;
    if x < 10 {
        return write_byte(out, room, at, last);
    }
    let next = write_number(out, room, at, x / 10);
    write_byte(out, room, next, last)
}

// Zeros from a byte of the buffer on, up to the end of the room.
pub fn clear_from(from: usize, room: usize, out: &mut [u8])
    requires { (from ≤ room) × (room ≤ length out.old) }
    ensures { out.new ≡ cleared_from room from out.old }
{
    out[from..room].fill(0);
}

// Reads bytes to the front of the room until it is full or no more come, and answers how many came.
pub fn fill_front<R: Read>(input: &mut R, room: &mut [u8]) -> io::Result<usize>
    ensures within { IfOk result (λ n. n ≤ length room.new) }
    ensures kept { length room.new ≡ length room.old }
{
    let mut got: usize = 0;
    for _ in 0..u64::MAX {
        if got == room.len() {
            break;
        }
        match input.read(&mut room[got..]) {
            Ok(0) => break,
            Ok(n) => got += n,
            Err(error) => {
                if error.kind() != ErrorKind::Interrupted {
                    return Err(error);
                }
            }
        }
    }
    Ok(got)
}
