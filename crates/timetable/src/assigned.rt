// Accepted packets with their rates, and what the timetable asks of them: who is sent next, units at first, and the radio cost.
ghost use Rattle.std.specs.Prelude.{◌≡◌, ◌<◌, IfSome};
ghost use Rattle.timetable.specs.Costs.{cost_of};
ghost use Rattle.timetable.specs.Steps.{PacketRates, RateIs, UnitsAtFirst, cost_at, next_of, sendable_at, units_at};

use crate::epoch::{Epoch, setting_of};
use fractions::{Rate, cross};
use packets::judge::MOST_PACKETS;
use packets::packets::Packets;

// Accepted packets, and the rate that each was assigned (bytes per second).
#[derive(Clone, Copy)]
pub struct Assigned<'a> {
    pub packets: Packets<'a>,
    pub rates: &'a [Option<Rate>; MOST_PACKETS],
    ghost assigned: { PacketRates packets.count packets.records.now rates.now },
}

impl<'a> Assigned<'a> {
    // Who is sent next in an epoch, once offset x of its `full` units is reached: of the candidates the one with the earliest deadline, and of equal deadlines the
    // lower number. Nobody where the epoch is full, or where there is no candidate.
    pub(crate) fn next(&self, epoch: Epoch, unsent: &[u64; 128], x: u64, full: u64) -> Option<usize>
        ensures choice { result ≡ next_of self.now.packets.count self.now.packets.records.now self.now.rates.now epoch unsent.now x full }
        ensures below { IfSome result (λ i. i < self.now.packets.count) }
    {
        if full <= x {
            return None;
        }
        (0..self.packets.count)
            .filter(|&i| self.is_sendable(epoch, unsent[i], i))
            .min_by_key(|&i| self.packets.deadline(i))
    }

    // Units unsent, the epoch's rate, and a window that contains the epoch. That i is a packet's number is of the call, here and below, and no fact of a value.
    fn is_sendable(&self, epoch: Epoch, unsent: u64, i: usize) -> bool
        requires { i < self.now.packets.count }
        ensures { result ≡ sendable_at self.now.packets.records.now self.now.rates.now epoch unsent i }
    {
        self.rates[i] == Some(epoch.rate)
            && self.packets.arrival(i) <= epoch.start
            && epoch.end <= self.packets.deadline(i)
            && 0 < unsent
    }

    // The units of each packet at first: bytes on the air times D.
    pub(crate) fn units_at_first(&self) -> [u64; 128]
        ensures { UnitsAtFirst self.now.packets.count self.now.packets.records.now result }
    {
        let mut unsent = [0; 128];
        for i in 0..self.packets.count {
            unsent[i] = self.units(i);
        }
        unsent
    }

    // The radio cost: the sum over packets of the bytes on the air times R (bytes per second, squared, times seconds).
    pub(crate) fn radio_cost(&self) -> u64
        ensures { result ≡ cost_of self.now.packets.count self.now.packets.records.now }
    {
        (0..self.packets.count).map(|i| self.cost(i)).sum()
    }

    // The units of packet i at first (1/D byte).
    fn units(&self, i: usize) -> u64
        requires { i < self.now.packets.count }
        ensures { result ≡ units_at self.now.packets.count self.now.packets.records.now i }
    {
        cross(self.packets.air_size(i), self.rate(i).d)
    }

    // What packet i adds to the radio cost.
    fn cost(&self, i: usize) -> u64
        requires { i < self.now.packets.count }
        ensures { result ≡ cost_at self.now.packets.count self.now.packets.records.now i }
    {
        cross(self.packets.air_size(i), setting_of(self.rate(i)))
    }

    // The rate of packet i: the policy leaves no packet without one.
    fn rate(&self, i: usize) -> Rate
        requires { i < self.now.packets.count }
        ensures { RateIs self.now.packets.count self.now.packets.records.now i result }
    {
        self.rates[i].unwrap()
    }
}
