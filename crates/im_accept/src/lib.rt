//! What a client accepts of a report: the message that each command asks for, the state of the client that
//! it is for, and that each message of a report is accepted there. The program calls none of it: its contracts
//! speak of the definitions, and `numbers` computes two of them for a client that follows a report.
#![tactic(auto)]

pub mod laws;
pub mod numbers;
