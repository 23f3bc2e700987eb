// What a program is like that Check accepts: a theorem in specs/ and laws of its code in proofs/. No functions. Assumes nothing.
#![tactic(auto)]
