// Text written to a lent buffer: the leaves that every writer uses, and the text of a network.
#![tactic(auto)]

pub mod network_text;
pub mod put;
