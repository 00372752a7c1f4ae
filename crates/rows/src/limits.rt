// The limits that document 01 sets, by name. Every contract of a function that uses one says the number's name in specs/Limits.
pub const MOST_BYTES: usize = 65536;

pub const LEAST_NAMES: usize = 12;

pub const MOST_NAMES: usize = 512;

pub const LEAST_NAME_BYTES: u32 = 1;

pub const MOST_NAME_BYTES: u32 = 64;

pub const MOST_TYPE_REFS: usize = 1024;

pub const MOST_TYPES: usize = 128;

pub const MOST_FIELDS: usize = 1024;

pub const MOST_ARGUMENTS: usize = 1024;

pub const MOST_SELECTIONS: usize = 2048;

pub const MOST_FRAGMENTS: usize = 64;

pub const MOST_NODES: usize = 4096;

pub const MOST_LITERALS: usize = 1024;

pub const MOST_VARIABLES: usize = 64;

pub const MOST_ANSWERS: usize = 4096;

// What document 01 sets no limit to has as many rows as words can number.
pub const MOST_ROWS: usize = 4294967295;

pub const MOST_TEXT_BYTES: usize = 65536;

pub const MOST_ERROR_WORDS: usize = 16384;

pub const MOST_CHOICES: usize = 4096;
