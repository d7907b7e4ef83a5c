// The ledger, demand 3: nothing is released twice, out of order, with other bytes, or dropped unseen. Theorems only;
// they speak of the calls' contracts, so they hold of the code.
#![tactic(auto)]
