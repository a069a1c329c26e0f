// Theorems over calls: see specs/.
#![tactic(auto)]
