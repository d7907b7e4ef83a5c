// Both sides of the edge: 01's P1 to P8 as one table, and both ends of each range of the head, computed from the
// definitions. Theorems only.
#![tactic(auto)]
