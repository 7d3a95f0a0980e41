// What follows from the paper's definitions for each call and for a whole history: proofs/ has demands 2 and 3. There is no code.
#![tactic(auto)]
