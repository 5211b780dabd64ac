// Theorems only: any sequence of exported calls is a sequence of steps of `runtime` (proofs/Runs.antt).
#![tactic(auto)]
