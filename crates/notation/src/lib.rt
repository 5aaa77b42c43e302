#![tactic(auto)]

// The notation of models: definitions in specs/, their theorems in proofs/. The reader's code stands in the crate `reader`.
