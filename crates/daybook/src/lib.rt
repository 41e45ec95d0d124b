// The customer's third demand, whole: sealing by any list of calls, checking an altered ledger, reading the table.
// The statement is in specs/, its proof in proofs/; there is no code.
#![tactic(auto)]
