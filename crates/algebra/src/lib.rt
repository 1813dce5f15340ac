// The algebra that every later proof rests on: lemmas over any field, in proofs/, and no code of its own.
#![tactic(auto)]
