// The ten examples of the scope: specs/ has the table, proofs/ the theorem. There is no code.
#![tactic(auto)]
