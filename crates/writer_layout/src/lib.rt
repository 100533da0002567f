// A table laid out as a file: the bytes of a wide field, of a record, the parts that a table claims, the layout.
#![tactic(auto)]

pub mod claimed_parts;
pub mod layouts;
pub mod record_bytes;
pub mod wides;
