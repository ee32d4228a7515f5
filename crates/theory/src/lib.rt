// Theorems about runs, over the definitions of graph and run. No code.

#![tactic(auto)]
