// The sizes that the library is made for, and those of what is lent to it.
#![tactic(auto)]

// Terms and stars of a fit, at most.
pub const MAX_TERMS: usize = 32;

pub const MAX_STARS: usize = 1024;

// Bytes of a name's slot, and numbers of a star's sheet.
pub const SLOT: usize = 16;

pub const SHEET: usize = 37;
