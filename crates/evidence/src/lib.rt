// What tables of outcomes tell about changed days, over any layout and any hash of 32 bytes.
// The definitions are in specs/, the theorems in proofs/; there is no code.
#![tactic(auto)]
