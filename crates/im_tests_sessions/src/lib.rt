//! Tests of sessions on threads, through the top call: that they run side by side, and that what they place is told once each.
#![tactic(auto)]

#[cfg(test)]
mod sessions;
