// What a search in portions answers and leaves, and what that means: definitions and theorems only.
#![tactic(auto)]
