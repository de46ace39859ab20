// The three demands as theorems over the calls' definitions. No code.
#![tactic(auto)]
