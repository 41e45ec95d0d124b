// The examples that the request marks, as one theorem about the layouts' meaning.
// The statement is in specs/, the theorem in proofs/; there is no code.
#![tactic(auto)]
