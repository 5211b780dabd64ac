// The rules of a push: definitions in specs/, laws and theorems in proofs/. The code is in `requests`.
#![tactic(auto)]
