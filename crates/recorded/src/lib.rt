// All rows that other decoders and the baker's oracle gave, as one test of the rules. It has no functions.
#![tactic(auto)]
