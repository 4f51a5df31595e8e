// Where each field of a record starts, counted from the record's first byte; as definitions: crates/tree/specs/Offset.antt.
pub const KIND: usize = 0;

pub const FACTS: usize = 1;

pub const SUB: usize = 2;

pub const RESERVED: usize = 3;

pub const CHILDREN: usize = 4;

pub const SUBTREE: usize = 6;

pub const TEXT: usize = 8;

pub const PLACE: usize = 12;

pub const END: usize = 16;
