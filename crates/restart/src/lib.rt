// No code: a network that is saved as text, read and opened again is the same network.

#![tactic(auto)]
