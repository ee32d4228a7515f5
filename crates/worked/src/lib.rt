// No code: document 01's worked lines and some of requests One and Two, computed from the definitions of the calls.

#![tactic(auto)]
