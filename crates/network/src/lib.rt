// The public calls: definitions that their contracts cite.

#![tactic(auto)]
