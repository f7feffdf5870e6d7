//! Worked examples of the definitions: what they give for whole lines, files, libraries, runs and reports. The results were
//! worked out by hand, and the prover computes them. There is no code here: each file of `proofs/` holds the examples of
//! what its name says, in the order in which a run meets them.
#![tactic(auto)]
