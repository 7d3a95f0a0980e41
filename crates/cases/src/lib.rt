// Worked cases of the paper's definitions on whole files and on a run of calls: proofs/ has them. There is no code.
#![tactic(auto)]
