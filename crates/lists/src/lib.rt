// Lists of numbers. The definitions are in specs/, their laws in proofs/; there is no code.
#![tactic(auto)]
