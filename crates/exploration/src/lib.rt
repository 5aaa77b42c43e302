// What there is to find of a model, and the search for it as a computation over lists: definitions in specs/, their theorems in proofs/.
#![tactic(auto)]
