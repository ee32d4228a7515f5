// What the values program prints, piece by piece.
#![tactic(auto)]

pub mod lines;
pub mod parts;
pub mod prepare;

// A file of more bytes is refused with number 2.
pub const MAX_FILE: usize = 65536;

// The longest line: seven numbers of at most ten digits, six spaces and a line feed.
pub const MAX_LINE: usize = 77;

// Bytes for the lines of a source: one for each vertex.
pub const SOURCE_BYTES: usize = MAX_LINE * graph::VERTEX_WORDS;
