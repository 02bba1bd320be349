// The numbers that the documents name, each once: the limits of a job and of a sheet, the letters of the kinds, and the sizes of tables that follow from them. It has no function; everyone may
// rely on it. Contracts say the same numbers as the documents do, in figures.
#![tactic(auto)]

// The most that a job may have (numbers 1, 15, 20 and 2): em and measure in units; "as for right ones" of left characters.
pub const MOST_EM: u32 = 4096;

pub const MOST_MEASURE: u32 = 4000000;

pub const MOST_RATIO: u32 = 7;

pub const MOST_PROFILE: u32 = 1;

pub const MOST_BASES: usize = 1024;

pub const MOST_RUBIES: usize = 2048;

pub const MOST_LEFTS: usize = 2048;

pub const MOST_ELEMENTS: usize = 1024;

// The most that a character may be wide, in units (3), and that an element may take (5).
pub const MOST_WIDTH: u32 = 4096;

pub const ELEMENT_BASES: u32 = 32;

pub const ELEMENT_RUBIES: u32 = 64;

// "ruby ones 1,024 + index", left ones "3,072 + index": the place of the first character of either side in a refusal.
pub const FIRST_RUBY: u32 = 1024;

pub const FIRST_LEFT: u32 = 3072;

// The kinds of element, as their letters on the sheet; a left reading has the letter of its kind, or that of none.
pub const PLAIN: u32 = 80;

pub const MONO: u32 = 77;

pub const GROUP: u32 = 71;

pub const JUKUGO: u32 = 74;

pub const LEFT_NONE: u32 = 78;

// The most bytes of a sheet, and those that any answer has room in.
pub const SHEET: usize = 65535;

pub const ANSWER: usize = 131072;

// A sheet's numbers in tables, a column for each field, as long as there may be rows: the section `set`; of base characters class, width, the blanks before and after, and the flag; of ruby and of
// left characters class and width; of elements the kind, base count, ruby count, left kind and left count; and the runs of either side.
pub const SET: usize = 9;

pub const BASE_TABLE: usize = 5 * MOST_BASES;

pub const BASE_WIDTH: usize = MOST_BASES;

pub const BASE_BEFORE: usize = 2 * MOST_BASES;

pub const BASE_AFTER: usize = 3 * MOST_BASES;

pub const BASE_FLAG: usize = 4 * MOST_BASES;

pub const RUBY_TABLE: usize = 2 * MOST_RUBIES;

pub const RUBY_WIDTH: usize = MOST_RUBIES;

pub const LEFT_TABLE: usize = 2 * MOST_LEFTS;

pub const LEFT_WIDTH: usize = MOST_LEFTS;

pub const ELEMENT_TABLE: usize = 5 * MOST_ELEMENTS;

pub const ELEMENT_BASE: usize = MOST_ELEMENTS;

pub const ELEMENT_RUBY: usize = 2 * MOST_ELEMENTS;

pub const ELEMENT_LEFT_KIND: usize = 3 * MOST_ELEMENTS;

pub const ELEMENT_LEFT: usize = 4 * MOST_ELEMENTS;

pub const RUNS: usize = 32 * MOST_ELEMENTS;

// The account's rows, six numbers for each piece.
pub const ACCOUNT: usize = 6 * MOST_BASES;
