// One page: the bytes that are the same in all pages.
#![tactic(auto)]

// Each page link begins with these nine bytes and goes on with 32 digest bytes. The seventh is the codec.
pub const LINK_HEAD: [u8; 9] = [0xD8, 0x2A, 0x58, 0x25, 0x00, 0x01, 0x71, 0x12, 0x20];

// What stands before the codec of a link, and between it and the digest.
pub const BEFORE_CODEC: [u8; 6] = [0xD8, 0x2A, 0x58, 0x25, 0x00, 0x01];

pub const AFTER_CODEC: [u8; 2] = [0x12, 0x20];

// An empty gap.
pub const NULL: u8 = 0xF6;

// The first byte of a number says what is counted.
pub const PLAIN_NUMBER: u8 = 0x00;

pub const BYTE_STRING: u8 = 0x40;

pub const ARRAY: u8 = 0x80;

// What stands before each field of a page.
pub const BEFORE_ENTRIES: [u8; 3] = [0xA2, 0x61, 0x65];

pub const BEFORE_LEFT: [u8; 2] = [0x61, 0x6C];

// What stands before each field of an entry.
pub const BEFORE_REMAINDER: [u8; 3] = [0xA4, 0x61, 0x6B];

pub const BEFORE_SHARES: [u8; 2] = [0x61, 0x70];

pub const BEFORE_GAP: [u8; 2] = [0x61, 0x74];

pub const BEFORE_VALUE: [u8; 2] = [0x61, 0x76];
