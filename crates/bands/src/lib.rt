// A picture cut between rows of blocks. That all parts are the whole, and that the first part which an older viewer's reader refuses names
// the first block, is in proofs/. It has no functions.
#![tactic(auto)]
