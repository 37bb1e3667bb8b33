// Judging packets in memory: document 01's tests 2, 3, 1, then 4, 5, 6 of each record in order.
// What is tested is said by specs/Records.antt.
ghost use Rattle.std.specs.Prelude.{◌≡◌, ◌+◌, ◌*◌, ◌<◌, ◌≤◌, length};
ghost use Rattle.packets.specs.Outcome.{verdict_of};
ghost use Rattle.packets.specs.Records.{record_test, memory_tests};

use crate::list::ListTable;
use crate::refusal::Refusal;
use crate::tables;

// The most packets of a list (packets).
pub const MOST_PACKETS: usize = 64;
// The largest listed size (bytes).
pub const LARGEST_SIZE: u64 = 65_535;
// The latest deadline (seconds).
pub const LAST_SECOND: u64 = 86_400;
// The numbers of a record: size (bytes), arrival (seconds), deadline (seconds).
pub const RECORD_NUMBERS: usize = 3;

// The tests of packets in memory, of which count are called for. Count and records come apart, as C hands them over.
pub fn judge_packets(count: usize, records: &[u64]) -> Result<(), Refusal>
    ensures { verdict_of result ≡ memory_tests count records.now }
{
    tables::judge_count::<ListTable>(count, records.len())?;
    tables::judge_rows::<ListTable>(count, records)
}

// The tests of record i, number by number, as the definition has them.
pub(crate) fn judge_record(i: usize, size: u64, arrival: u64, deadline: u64) -> Result<(), Refusal>
    ensures { verdict_of result ≡ record_test i size arrival deadline }
{
    if size == 0 {
        return Err(Refusal::Size(i));
    }
    if LARGEST_SIZE < size {
        return Err(Refusal::Size(i));
    }
    if LAST_SECOND < deadline {
        return Err(Refusal::Deadline(i));
    }
    if deadline <= arrival {
        return Err(Refusal::Arrival(i));
    }
    Ok(())
}
