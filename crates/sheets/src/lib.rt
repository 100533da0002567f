// The check program's sheet: what its entry answers. Document 01, "The check program and its sheet".
// What the sheet's entry answers: 20 or 0, its place, and how many bytes the sheet has.
#![tactic(auto)]

#[derive(Clone, Copy)]
pub struct SheetAnswer {
    pub number: u8,
    pub place: u32,
    pub length: u32,
}

// The room of a text that a sheet always fits in.
pub const SHEET_ROOM: usize = 4608;

// "uses allowance 1,000,000"
pub const ALLOWANCE: u64 = 1000000;
