// What is claimed of the port: theorems alone. The functions that they speak of are called in the crate `promises`.
#![tactic(auto)]
