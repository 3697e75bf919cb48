//! Jets over the fractions of the code as jets of polynomials: what they stand for, and their operations.
#![tactic(auto)]
