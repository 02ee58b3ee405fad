// The theory of routes and their order: definitions and statements in specs/, theorems in proofs/. No code.
#![tactic(auto)]
