// The figures that are worked by hand and starred in SCOPE, Cases: one table in specs/, one theorem in proofs/. There is no code here.

#![tactic(auto)]
