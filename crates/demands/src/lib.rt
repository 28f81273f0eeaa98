// What is demanded of a book (SCOPE, Demands), over the true totals: definitions in specs/, theorems in proofs/. There is no code here.

#![tactic(auto)]
