// Mathematics only: the definitions are in specs/, the theorems in proofs/. There is no code.
#![tactic(auto)]
