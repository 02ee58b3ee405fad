// What the calls on a ledger do taken together: statements in specs/, theorems in proofs/. No code.
#![tactic(auto)]
