// The receiver's answers as 01 writes them: what their lines determine, and which refusals can occur. Theorems only:
// 01, "Trace", "Each proof's duty".
#![tactic(auto)]
