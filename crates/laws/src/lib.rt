// Laws of the rules, and of the lists and numbers that they speak of: what every crate above leans on. It has no functions.
#![tactic(auto)]
