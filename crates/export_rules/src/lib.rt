// What the exports for C and Rust leave, and what a refusal leaves unchanged: definitions in specs/, laws and theorems about them in
// proofs/. The code is in `potterbeam`.
#![tactic(auto)]
