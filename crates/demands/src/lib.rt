// The three demands on one page: statements in specs/, one theorem in proofs/. No code.
#![tactic(auto)]
