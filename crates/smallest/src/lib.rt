// How small a book can be (SCOPE, No smaller book): definitions in specs/, theorems in proofs/. There is no code here.

#![tactic(auto)]
