// The edge table: its rules, look-up, one edge more or less, and its index and that of the reversed table.
#![tactic(auto)]

pub mod arc;
pub mod edit;
pub mod ends;
pub mod keys;
pub mod pack;
pub mod refusal;
pub mod rules;
pub mod words;

pub use refusal::Refusal;

// The limits of a network, each named once.
pub const MAX_VERTICES: u32 = 256;

pub const MAX_EDGES: usize = 2048;

pub const MAX_WEIGHT: u32 = 65535;

pub const MAX_LANDMARKS: usize = 4;

pub const MAX_BATCH: usize = 1024;

pub const MAX_SCHEDULE: usize = 4096;

// Words of lists: a word for each vertex, and one more for their places; an index, with a word for each edge; a row for each landmark and
// property.
pub const VERTEX_WORDS: usize = MAX_VERTICES as usize;

pub const PLACE_WORDS: usize = VERTEX_WORDS + 1;

pub const INDEX_WORDS: usize = PLACE_WORDS + MAX_EDGES;

pub const ROW_WORDS: usize = MAX_LANDMARKS * property::PROPERTIES * VERTEX_WORDS;
