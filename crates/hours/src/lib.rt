// Hours add up to the day (document 02, h): what is said of a counter's readings stands in specs/, the proofs in proofs/. No functions. Assumes nothing.
#![tactic(auto)]
