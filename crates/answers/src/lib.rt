// No code: the definitions of the calls that document 02 adds, and their claims.

#![tactic(auto)]
