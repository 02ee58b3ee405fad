// Document 01's cases at the edges: one table in specs/, one theorem in proofs/. No code.
#![tactic(auto)]
