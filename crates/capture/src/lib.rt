// Captures: the record at a place.
#![tactic(auto)]

pub mod records;
