// The timetables: from packets in memory to the exact and the radio timetable, by earliest deadline first (document 01, "The two timetables").
// What is promised is said by specs/Answer.antt, over the entries of specs/Entries.antt and the costs of specs/Costs.antt.
#![tactic(auto)]

pub mod assigned;
pub mod entry;
pub mod epoch;
pub mod made;

ghost use Rattle.timetable.specs.Answer.{Timetabled};

use crate::entry::{ENTRY_NUMBERS, Entry, MOST_ENTRIES, write_entries};
use crate::made::made_of;
use packets::packets::Packets;
use packets::refusal::Refusal;

// Both timetables of a list: the number of rounds, the number of entries, and the radio cost (bytes per second, squared, times seconds).
#[derive(Clone, Copy, PartialEq, Eq, Debug)]
pub struct Timetable {
    pub rounds: usize,
    pub entries: usize,
    pub cost: u64,
}

// Both timetables of packets in memory. An entry is seven numbers: packet, epoch start (seconds), R (bytes per second), D, from and to (units of 1/D byte
// from the epoch's start), N; the exact rate is N/D bytes per second. What is lent past the last entry stays as it was, and all of it after a refusal: 2, 3, 1,
// the records, then 8.
pub fn timetables(count: usize, records: &[u64], entries: &mut [u64]) -> Result<Timetable, Refusal>
    ensures { Timetabled count records.now entries.old result entries.new }
{
    let packets = Packets::accept(count, records)?;
    let mut made = [Entry::default(); MOST_ENTRIES];
    let timetable = made_of(packets, &mut made);
    if entries.len() < ENTRY_NUMBERS * timetable.entries {
        return Err(Refusal::NoRoom);
    }
    write_entries::<ENTRY_NUMBERS>(&made[..timetable.entries], entries);
    Ok(timetable)
}
