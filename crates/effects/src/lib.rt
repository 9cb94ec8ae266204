// Theorems on what the calls do, over their definitions alone. No code.
#![tactic(auto)]
