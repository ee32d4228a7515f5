// Reading network text into table lists.
#![tactic(auto)]

pub mod network_text;
