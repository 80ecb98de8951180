// No code: the cases of docs/SCOPE.md 12.1 are a table of definitions (specs/Cases.antt) and one theorem over it (proofs/Starred.antt).
#![tactic(auto)]
