// The rules of a pull and of the signer's own step: definitions in specs/, laws and theorems in proofs/. The code is in `responses`.
#![tactic(auto)]
