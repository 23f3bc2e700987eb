// What was ordered, as theorems over the definitions: statements in specs/Theorems.antt, proofs in proofs/. No functions.
#![tactic(auto)]
