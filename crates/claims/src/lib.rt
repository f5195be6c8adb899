// The claims of the three demands as theorems, each over the promise that the readers of crate etc make. It has no functions.
#![tactic(auto)]
