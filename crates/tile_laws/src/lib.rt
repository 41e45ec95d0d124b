// Laws of one tile: which of its chains pass for a set of days, and how many of its days are listed.
// The statements are in specs/, the theorems in proofs/; there is no code.
#![tactic(auto)]
