// A replay of a trace is a run of the ledger's theorem, so that demand 3 holds of it. Theorems only.
#![tactic(auto)]
