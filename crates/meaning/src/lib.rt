#![tactic(auto)]

// What models mean over tables of any number of rows, and when a sheet passes: definitions in specs/, their theorems in proofs/.
