// Numbers in decimal digits, written and read: definitions in specs/, theorems in proofs/. There is no code here.

#![tactic(auto)]
