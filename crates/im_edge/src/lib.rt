//! Where octets come from and go to, kept lines, the time, and a gate round lines. Each trait
//! stands beside a form in memory or an adapter over std's readers, writers and files. `FixedClock`,
//! `TickingClock`, `MemKeeper` and `FusedKeeper` serve tests alone.
#![tactic(auto)]

pub mod clock;
pub mod file_keeper;
pub mod file_lock;
pub mod fused_keeper;
pub mod gate;
pub mod keeper;
pub mod lines;
pub mod locked_keeper;
pub mod sink;
pub mod source;
