// The affected vertices of a batch: definitions that contracts cite, and theorems on what a batch does to best values. No code.

#![tactic(auto)]
