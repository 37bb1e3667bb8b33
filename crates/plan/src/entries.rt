// Judging entries in memory: document 01's refusal 10. What is tested is said by specs/Entries.antt.
ghost use Rattle.std.specs.Prelude.{◌≡◌, ◌+◌, ◌*◌, ◌≤◌, length};
ghost use Rattle.packets.specs.Outcome.{verdict_of};
ghost use Rattle.plan.specs.Entries.{entry_test};

use packets::judge::LAST_SECOND;
use packets::refusal::Refusal;

// The most entries of a plan (entries), and the numbers of an entry.
pub const MOST_ENTRIES: usize = 191;

pub const ENTRY_NUMBERS: usize = 6;

// The first value too wide for a packet's number (6 bits), a setting (22 bits) and an offset (39 bits).
const PACKET_END: u64 = 64;

const SETTING_END: u64 = 4_194_304;

const OFFSET_END: u64 = 549_755_813_888;

// The tests of entry i, number by number, as the definition has them.
pub(crate) fn judge_entry(
    i: usize,
    packet: u64,
    start: u64,
    r: u64,
    d: u64,
    from: u64,
    to: u64,
) -> Result<(), Refusal>
    ensures { verdict_of result ≡ entry_test i packet start r d from to }
{
    if PACKET_END <= packet {
        return Err(Refusal::Entry(i));
    }
    if LAST_SECOND <= start {
        return Err(Refusal::Entry(i));
    }
    if r == 0 {
        return Err(Refusal::Entry(i));
    }
    if SETTING_END <= r {
        return Err(Refusal::Entry(i));
    }
    if d == 0 {
        return Err(Refusal::Entry(i));
    }
    if LAST_SECOND < d {
        return Err(Refusal::Entry(i));
    }
    if to <= from {
        return Err(Refusal::Entry(i));
    }
    if OFFSET_END <= to {
        return Err(Refusal::Entry(i));
    }
    Ok(())
}
