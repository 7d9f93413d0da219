// The theorems about histories: definitions and statements in specs/, proofs in proofs/. No code.
#![tactic(auto)]
