// Downcrook for C and Rust: every public operation as a function of a static library. An answer is a struct of plain numbers (src/shown.rt), so nothing is lent
// but what the operation itself fills. include/downcrook.h declares the functions; specs/Shown.antt says which numbers an answer is.
#![tactic(auto)]

pub mod shown;

ghost use Rattle.std.specs.Prelude.{◌≡◌, length};
ghost use Rattle.packets.specs.Records.{memory_tests};
ghost use Rattle.packets.specs.List as lists;
ghost use Rattle.policy.specs.Answer.{rates_outcome, rates_after};
ghost use Rattle.timetable.specs.Answer as timetabled;
ghost use Rattle.plan.specs.Frame as plans;
ghost use Rattle.planner.specs.Whole as whole;
ghost use Rattle.downcrook_c.specs.Shown.{
  shown,
  judged_fields,
  listed_fields,
  written_fields,
  rated_fields,
  planned_fields,
  read_fields,
};

use crate::shown::{Judged, Listed, Planned, Rated, Read, Written};
use packets::{judge, list};
use plan::frame;

// Plans the list at the front of the bytes into the lent frame, from byte 8 on. The eight head bytes and the bytes behind the plan stay; a refusal changes nothing.
#[unsafe(no_mangle)]
pub extern "C" fn downcrook_plan_list(list: &[u8], frame: &mut [u8]) -> Planned
    ensures { (planned_fields result ≡ shown 3 (whole.plan_outcome list.now (length frame.old)))
        × (frame.new ≡ whole.frame_after list.now frame.old) }
{
    planner::plan_list(list, frame).into()
}

// Judges packets in memory, of which count are called for.
#[unsafe(no_mangle)]
pub extern "C" fn downcrook_judge_packets(count: usize, records: &[u64]) -> Judged
    ensures { judged_fields result ≡ shown 0 (memory_tests count records.now) }
{
    judge::judge_packets(count, records).into()
}

// What reading the list at the front of the bytes into room for so many numbers comes to.
#[unsafe(no_mangle)]
pub extern "C" fn downcrook_judge_list(bytes: &[u8], room: usize) -> Listed
    ensures { listed_fields result ≡ shown 2 (lists.read_outcome bytes.now room) }
{
    list::judge_list(bytes, room).into()
}

// Reads the list at the front of the bytes into the lent records, three numbers a packet. What it takes (bytes) is what the part handed back leaves of the input.
// A refusal changes nothing.
#[unsafe(no_mangle)]
pub extern "C" fn downcrook_read_list(bytes: &[u8], records: &mut [u64]) -> Listed
    ensures { (listed_fields result ≡ shown 2 (lists.read_outcome bytes.now (length records.old)))
        × (records.new ≡ lists.records_after bytes.now records.old) }
{
    let judged: Listed = list::judge_list(bytes, records.len()).into();
    let rest = list::read_list(bytes, records);
    Listed {
        bytes: (bytes.len() - rest.len()) as u64,
        ..judged
    }
}

// Writes packets in memory as a list to the front of the lent bytes. The bytes behind it stay; a refusal changes nothing.
#[unsafe(no_mangle)]
pub extern "C" fn downcrook_write_list(count: usize, records: &[u64], bytes: &mut [u8]) -> Written
    ensures { (written_fields result ≡ shown 1 (lists.write_outcome count records.now (length bytes.old)))
        × (bytes.new ≡ lists.bytes_after count records.now bytes.old) }
{
    list::write_list(count, records, bytes).into()
}

// The rate of every epoch: start (seconds), N and D (N/D bytes per second), three numbers an epoch. The numbers past the last epoch stay; a refusal changes nothing.
#[unsafe(no_mangle)]
pub extern "C" fn downcrook_epoch_rates(count: usize, records: &[u64], rates: &mut [u64]) -> Rated
    ensures { (rated_fields result ≡ shown 2 (rates_outcome count records.now (length rates.old)))
        × (rates.new ≡ rates_after count records.now rates.old) }
{
    policy::epoch_rates(count, records, rates).into()
}

// Both timetables of packets in memory, seven numbers an entry. The numbers past the last entry stay; a refusal changes nothing.
#[unsafe(no_mangle)]
pub extern "C" fn downcrook_timetables(
    count: usize,
    records: &[u64],
    entries: &mut [u64],
) -> Planned
    ensures { (planned_fields result ≡ shown 3 (timetabled.timetables_outcome count records.now (length entries.old)))
        × (entries.new ≡ timetabled.entries_after count records.now entries.old) }
{
    timetable::timetables(count, records, entries).into()
}

// Reads the plan in a frame, from byte 8 on, into lent entries, six numbers an entry. The numbers past the last entry stay; a refusal changes nothing.
#[unsafe(no_mangle)]
pub extern "C" fn downcrook_read_plan(frame: &[u8], entries: &mut [u64]) -> Read
    ensures { (read_fields result ≡ shown 2 (plans.read_outcome (plans.plan_on frame.now) (length entries.old)))
        × (entries.new ≡ plans.entries_after (plans.plan_on frame.now) entries.old) }
{
    frame::read_plan(frame, entries).into()
}

// Writes entries, six numbers each, and cost as a plan into the lent frame, from byte 8 on. The eight head bytes and the bytes behind the plan stay; a refusal
// changes nothing.
#[unsafe(no_mangle)]
pub extern "C" fn downcrook_write_plan(
    count: usize,
    entries: &[u64],
    cost: u64,
    frame: &mut [u8],
) -> Written
    ensures { (written_fields result ≡ shown 1 (plans.write_outcome count entries.now cost (length frame.old)))
        × (frame.new ≡ plans.frame_after count entries.now cost frame.old) }
{
    frame::write_plan(count, entries, cost, frame).into()
}
