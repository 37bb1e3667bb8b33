// Plan: the entries of a timetable in a lent frame.
#![tactic(auto)]

pub mod entries;
pub mod frame;
