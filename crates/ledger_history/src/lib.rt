// Every leg accounted for, after any calls on an empty ledger: statements in specs/, theorems in proofs/. No code.
#![tactic(auto)]
