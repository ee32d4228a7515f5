// What a caller in C gets: replies as a number and words.
#![tactic(auto)]

pub mod spell;

// How many words a reply list has at least: `reply_words` of specs/Code.antt is the same number.
pub const REPLY_WORDS: usize = 8;
