// Lists of calls: 01's diary, what the service answers and writes over any such list, and that the two agree.
// Definitions are in specs/, laws in proofs/; there is no code.
#![tactic(auto)]
