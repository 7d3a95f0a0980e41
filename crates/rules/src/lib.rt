// The customer's paper, in antt: specs/ has the definitions, proofs/ the laws that other crates cite. There is no code.
#![tactic(auto)]
