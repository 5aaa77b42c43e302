#![tactic(auto)]

// Texts at the limits of the notation. There is no code here: the definitions compute each answer, which takes most of the time that the notation's cases take.
