// The lines that the program prints, written into a lent buffer: those of one term, and that of a refused file.

#![tactic(auto)]

mod line;
mod term;
mod written;

pub use term::{LINE_ROOM, TEXT_ROOM, file_line, lines, term_lines};
pub use written::TooShort;
