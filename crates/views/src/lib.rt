// The window as a list of entries: what each operation does to that list. Theorems only; the layers above cite these
// and open no window.
#![tactic(auto)]
