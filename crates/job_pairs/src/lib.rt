//! Two complexes of an input that are fit for a job: definitions and lemmas, and no code.
#![tactic(auto)]
