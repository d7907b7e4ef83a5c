// What a collector that links the C functions does is a run of the ledger's theorem. Theorems only.
#![tactic(auto)]
