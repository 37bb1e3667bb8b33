// Packets that every test passes. The value carries what the tests showed, so that the layers above ask for it and test nothing again.
// What accepted packets are is said by specs/Records.antt.
ghost use Rattle.std.specs.Prelude.{◌≡◌, ◌+◌, ◌*◌, ◌<◌, length, IfOk};
ghost use Rattle.packets.specs.Limits.{air_bytes};
ghost use Rattle.packets.specs.Outcome.{answer_of, no_values};
ghost use Rattle.packets.specs.Records.{Accepted, memory_tests, record_numbers, size_of, arrival_of, deadline_of};

use crate::judge::{RECORD_NUMBERS, judge_packets};
use crate::refusal::Refusal;

// A list's packets, of which the first `count` records are called for: three numbers each, size (bytes), arrival (seconds), deadline (seconds).
#[derive(Clone, Copy)]
pub struct Packets<'a> {
    pub count: usize,
    pub records: &'a [u64],
    ghost accepted: { Accepted count records.now },
}

impl<'a> Packets<'a> {
    // The packets, where they pass their tests.
    pub fn accept(count: usize, records: &'a [u64]) -> Result<Packets<'a>, Refusal>
        ensures verdict { answer_of no_values result ≡ memory_tests count records.now }
        ensures kept { IfOk result (λ packets. (packets.count ≡ count) × (packets.records.now ≡ records.now)) }
    {
        judge_packets(count, records)?;
        Ok(Packets { count, records })
    }

    // The arrival of packet i (seconds). Its `requires`, and those below, ask no more than that the numbers are lent: `i < count` would ask more.
    pub fn arrival(&self, i: usize) -> u64
        requires { record_numbers * i + 2 < length self.now.records.now }
        ensures { result ≡ arrival_of self.now.records.now i }
    {
        self.records[RECORD_NUMBERS * i + 1]
    }

    // The deadline of packet i (seconds).
    pub fn deadline(&self, i: usize) -> u64
        requires { record_numbers * i + 2 < length self.now.records.now }
        ensures { result ≡ deadline_of self.now.records.now i }
    {
        self.records[RECORD_NUMBERS * i + 2]
    }

    // The bytes that packet i puts on the air.
    pub fn air_size(&self, i: usize) -> u64
        requires { record_numbers * i + 2 < length self.now.records.now }
        ensures { result ≡ air_bytes (size_of self.now.records.now i) }
    {
        on_the_air(self.records[RECORD_NUMBERS * i])
    }
}

// The bytes that go on the air for a listed size (bytes).
#[tactic(auto, unfolding(crate::specs::Limits::air_bytes))]
fn on_the_air(listed: u64) -> u64
    ensures { result ≡ air_bytes listed }
{
    listed
}
