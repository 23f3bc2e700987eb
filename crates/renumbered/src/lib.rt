// What a caller sees of document 02's request c), as theorems over the definitions: the engine before it in specs/Before.antt, statements in
// specs/Theorems.antt, proofs in proofs/. No functions.
#![tactic(auto)]
