// Network text and source files: definitions that the contracts of the readers and the writer cite.

#![tactic(auto)]
