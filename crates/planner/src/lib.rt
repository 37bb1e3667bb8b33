// Planner: the whole call, from a list's bytes to a plan in a lent frame. What it promises is said by specs/Whole.antt.
#![tactic(auto)]

ghost use Rattle.planner.specs.Whole.{Whole, Packed};

use packets::judge::RECORD_NUMBERS;
use packets::list::{LIST_NUMBERS, ListTable};
use packets::packets::Packets;
use packets::refusal::Refusal;
use packets::tables::read_table;
use plan::entries::ENTRY_NUMBERS;
use plan::frame::{PLAN_NUMBERS, write_plan};
use timetable::Timetable;
use timetable::entry::{Entry, MOST_ENTRIES, write_entries};
use timetable::made::made_of;

// Plans the list at the front of the bytes and writes the plan into the lent frame from byte 8 on. The eight head bytes and the bytes behind the plan
// stay; a refusal changes nothing. A frame of 3,357 bytes always suffices.
pub fn plan_list(list: &[u8], frame: &mut [u8]) -> Result<Timetable, Refusal>
    ensures { Whole list.now frame.old result frame.new }
{
    let mut records = [0u64; LIST_NUMBERS];
    let count = read_table::<ListTable, LIST_NUMBERS>(list, &mut records)?;
    let packets = Packets {
        count,
        records: &records[..RECORD_NUMBERS * count],
    };
    plan_packets(packets, frame)
}

// The same for packets that passed their tests. Entries and rows are arrays of the most there can be, since memory is fixed.
fn plan_packets(packets: Packets, frame: &mut [u8]) -> Result<Timetable, Refusal>
    ensures { Packed packets.entry.count packets.entry.records.now frame.old result frame.new }
{
    let mut entries = [Entry::default(); MOST_ENTRIES];
    let timetable = made_of(packets, &mut entries);
    let mut rows = [0u64; PLAN_NUMBERS];
    write_entries::<ENTRY_NUMBERS>(&entries[..timetable.entries], &mut rows);
    write_plan(timetable.entries, &rows, timetable.cost, frame)?;
    Ok(timetable)
}
