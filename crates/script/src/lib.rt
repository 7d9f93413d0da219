// The script: lines of bytes, the commands that they say, and the lines that answer them.
#![tactic(auto)]

pub mod command;
mod field;
mod number;
mod perform;
pub mod session;
mod text;
mod words;

// The bytes that a line may have, its LF not counted.
const LINE: usize = 80;

// The bytes kept of a line: one beyond those tells that it is too long.
pub const KEPT: usize = LINE + 1;

// The digits that a number may have, and the most that a printed one has.
const DIGITS: usize = 10;

// The bytes of the longest word.
const WORD: usize = 7;

// The bytes of the longest answer: a word, two numbers behind tabs, and LF.
const ANSWER: usize = WORD + 2 * (1 + DIGITS) + 1;

// The bytes that are fed at once, at the most, and those of the buffer that takes what they print.
pub const FED: usize = 4096;

pub const PRINTED: usize = ANSWER * FED;

// The blocks of the program's card.
pub const BLOCKS: u32 = 64;
