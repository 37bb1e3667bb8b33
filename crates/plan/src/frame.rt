// The plan in a lent frame: entries and cost in memory into the frame from byte 8 on, and back into lent entries.
// What each call comes to, and what it leaves in every lent buffer, is said by specs/Frame.antt.
ghost use Rattle.std.specs.Prelude.{◌≡◌, ◌<◌, ◌≤◌};
ghost use Rattle.packets.specs.Outcome.{verdict_of};
ghost use Rattle.plan.specs.Forms.{plan_form, plan_laws};
ghost use Rattle.plan.specs.Frame.{frame_bytes, memory_tests, PlanRead, PlanWritten};

use crate::entries::{ENTRY_NUMBERS, MOST_ENTRIES, judge_entry};
use bits::{field, table};
use packets::refusal::Refusal;
use packets::tables;
use packets::tables::Table;

// The bytes at a frame's front that belong to the radio driver (bytes).
const HEAD_BYTES: usize = 8;

// The widths of the entry count and the cost (bits), and what they add up to (bits).
const COUNT_WIDTH: usize = 8;

const COST_WIDTH: usize = 44;

const HEAD_WIDTHS: [usize; 2] = [8, 44];

const HEAD_WIDTH: usize = 52;

// The widths of an entry's packet, start, R, D, from and to (bits), and what they add up to (bits).
const ENTRY_WIDTHS: [usize; 6] = [6, 17, 22, 17, 39, 39];

const ENTRY_WIDTH: usize = 140;

// The first cost that does not fit (bytes per second, squared, times seconds).
const COST_END: u64 = 17_592_186_044_416;

// The numbers of a plan of 191 entries.
pub const PLAN_NUMBERS: usize = 1146;

// A plan as a table on the wire: the entry count and the cost, then a row for each entry.
pub struct PlanTable;

impl Table for PlanTable {
    ghost form = { plan_form };

    ghost laws = { plan_laws };

    fn count_width() -> usize {
        COUNT_WIDTH
    }

    #[tactic(auto, unfolding(bits::specs::Table::total))]
    fn head_width() -> usize {
        HEAD_WIDTH
    }

    #[tactic(auto, unfolding(bits::specs::Table::total))]
    fn row_width() -> usize {
        ENTRY_WIDTH
    }

    fn row_widths() -> &'static [usize] {
        &ENTRY_WIDTHS
    }

    fn most() -> usize {
        MOST_ENTRIES
    }

    fn none() -> Refusal {
        Refusal::EntryCount
    }

    fn many() -> Refusal {
        Refusal::EntryCount
    }

    fn judge_row(numbers: &[u64], i: usize) -> Result<(), Refusal> {
        let at = ENTRY_NUMBERS * i;
        judge_entry(
            i,
            numbers[at],
            numbers[at + 1],
            numbers[at + 2],
            numbers[at + 3],
            numbers[at + 4],
            numbers[at + 5],
        )
    }
}

// The head of a plan: how many entries it has, and its cost (bytes per second, squared, times seconds).
#[derive(Clone, Copy, PartialEq, Eq, Debug)]
pub struct PlanHead {
    pub entries: usize,
    pub cost: u64,
}

// Reads the plan from byte 8 of the frame on into the lent entries, six numbers an entry, and answers its head. It reads nothing before byte 8 and nothing
// behind the plan, and compares it with no list. A refusal changes nothing.
pub fn read_plan(frame: &[u8], lent: &mut [u64]) -> Result<PlanHead, Refusal>
    ensures { PlanRead frame.now lent.old result lent.new }
{
    if frame.len() < HEAD_BYTES {
        return Err(Refusal::Short);
    }
    let plan = &frame[HEAD_BYTES..];
    let entries = tables::read_table::<PlanTable, PLAN_NUMBERS>(plan, lent)?;
    Ok(PlanHead {
        entries,
        cost: field::get(plan, COUNT_WIDTH, COST_WIDTH),
    })
}

// Writes entries and cost as a plan into the lent frame from byte 8 on, and answers how many bytes of the frame it takes, the head included. The eight head
// bytes and the bytes behind the plan stay, and a refusal changes nothing. `write_list` has this shape too, and stays apart: a list has no cost to test and no
// head before it, and what is alike is `write_table`.
pub fn write_plan(
    count: usize,
    entries: &[u64],
    cost: u64,
    frame: &mut [u8],
) -> Result<usize, Refusal>
    ensures { PlanWritten count entries.now cost frame.old result frame.new }
{
    judge_memory(count, entries, cost)?;
    let used = frame_bytes(count);
    if frame.len() < used {
        return Err(Refusal::NoRoom);
    }
    let head = [count as u64, cost];
    table::write_table(
        &mut frame[HEAD_BYTES..],
        &HEAD_WIDTHS,
        &head,
        &ENTRY_WIDTHS,
        count,
        entries,
    );
    Ok(used)
}

// The tests of entries in memory and their cost.
fn judge_memory(count: usize, entries: &[u64], cost: u64) -> Result<(), Refusal>
    ensures { verdict_of result ≡ memory_tests count entries.now cost }
{
    tables::judge_count::<PlanTable>(count, entries.len())?;
    if COST_END <= cost {
        return Err(Refusal::Cost);
    }
    tables::judge_rows::<PlanTable>(count, entries)
}

// The bytes of a frame with a plan of so many entries, its head included (bytes).
fn frame_bytes(count: usize) -> usize
    requires { count < 256 }
    ensures { (result ≡ frame_bytes count) × (8 ≤ result) }
{
    HEAD_BYTES + tables::table_bytes::<PlanTable>(count)
}
