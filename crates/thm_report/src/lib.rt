// A loss report read back: the numbers that its words name are those of the due entries. Theorems only.
#![tactic(auto)]
