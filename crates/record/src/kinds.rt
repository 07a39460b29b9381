// The kinds, each by its number (docs/FORMAT.md, 4.1, after RFC 6733, sections 4.2 and 4.3).
pub const UNHANDLED: u8 = 0;

pub const OCTET_STRING: u8 = 1;

pub const INTEGER32: u8 = 2;

pub const INTEGER64: u8 = 3;

pub const UNSIGNED32: u8 = 4;

pub const UNSIGNED64: u8 = 5;

pub const FLOAT32: u8 = 6;

pub const FLOAT64: u8 = 7;

pub const GROUPED: u8 = 8;

pub const ENUMERATED: u8 = 9;

pub const UTF8_STRING: u8 = 10;

pub const DIAMETER_IDENTITY: u8 = 11;

pub const DIAMETER_URI: u8 = 12;

pub const ADDRESS: u8 = 13;

pub const TIME: u8 = 14;
