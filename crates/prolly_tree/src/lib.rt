//! Prolly trees, pipelines that make them, and merging, as definitions: no code. Contracts of the
//! crates above speak of these, and their proofs cite its lemmas.
#![tactic(auto)]
