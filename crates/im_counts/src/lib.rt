//! What it means that a count of faults rose: each device counts its own, and stands at the type's end once it gets there.
#![tactic(auto)]
