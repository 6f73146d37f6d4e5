//! What whole runs over a sender and a receiver are, and the promise over them: definitions in `specs/`, their proof in `proofs/`.
//! There is no code here: `runs::run::run` carries the promise on its contract.
#![tactic(auto)]
