// A head in range stays in range: what new and each call do to the head. Theorems only: 01, "Head and lent areas", so
// no run from new is ever refused 1.
#![tactic(auto)]
