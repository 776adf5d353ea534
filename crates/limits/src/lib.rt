// The limits of registers and of the numbers in their pages.
#![tactic(auto)]

// The bytes of a register, and of the input of digest and layer.
pub const LONGEST: usize = 4_194_304;

// The records of a register.
pub const MOST: usize = 4_096;

// A register of at most so many bytes has at most 255 records, since an entry has at least 53 bytes; one record more makes 256.
pub const SHORT: usize = 13_515;

pub const FEW: usize = 256;

// The bytes of a key.
pub const LONGEST_KEY: usize = 256;

// The pages from the root down, the root included.
pub const DEEPEST: usize = 129;

// Each number in a page is below this one.
pub const NUMBERS: usize = 65_536;
