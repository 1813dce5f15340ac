// What the least pair of the modified syndromes says of the codeword in reach: lemmas, in proofs/, and no code of its own.
// specs/ has the numbers that a corrector computes on its way, and what it then knows.
#![tactic(auto)]
