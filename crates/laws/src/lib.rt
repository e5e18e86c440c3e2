// Facts that no oscillator owns: specs/ has the definitions, proofs/ the laws. There is no code.
#![tactic(auto)]
