// Whole numbers that may be negative, for definitions and proofs. There is no code here: code computes in unsigned numbers.
#![tactic(auto)]
