#![tactic(auto)]

// No code: the error bound on chi-square, and the best of the sets that a loop of trials tries.
