// Packets: the list of a day's waybills, in memory and on the wire.
#![tactic(auto)]

pub mod judge;
pub mod list;
pub mod packets;
pub mod refusal;
pub mod tables;
