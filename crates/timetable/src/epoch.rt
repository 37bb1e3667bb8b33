// One epoch of the timetable: earliest deadline first from its start, until it is full or no candidate is left.
ghost use Rattle.std.specs.Prelude.{◌≡◌, suc, ◌+◌, ◌^◌, ◌<◌};
ghost use Rattle.timetable.specs.Setting.{setting};
ghost use Rattle.timetable.specs.Steps.{Carrying, Underway};

use crate::assigned::Assigned;
use crate::entry::{Entry, MOST_ENTRIES};
use fractions::{Rate, cross};

// An epoch that carries a rate: its number, its start and its end (seconds), and the rate (bytes per second).
#[derive(Clone, Copy)]
pub struct Epoch {
    pub number: usize,
    pub start: u64,
    pub end: u64,
    pub rate: Rate,
}

// How far the timetable has come: the units that each packet has still to send (1/D byte), and the number of entries. The entries stand in an array that the caller
// lends, since memory is fixed, and as values in this struct they would be copied.
#[derive(Clone, Copy)]
pub struct Sheet {
    pub unsent: [u64; 128],
    pub count: usize,
}

impl Sheet {
    // The stretches of one epoch, each until its packet or the epoch ends. Their entries stand behind those of the epochs before it.
    pub(crate) fn fill(
        &mut self,
        epoch: Epoch,
        assigned: &Assigned,
        entries: &mut [Entry; MOST_ENTRIES],
    )
        requires carrying { Carrying assigned.now.packets.count assigned.now.packets.records.now epoch }
        requires underway { Underway assigned.now.packets.count assigned.now.packets.records.now epoch.number self.old entries.old }
        ensures { Underway assigned.now.packets.count assigned.now.packets.records.now (suc epoch.number) self.new entries.new }
    {
        let full = cross(epoch.end - epoch.start, epoch.rate.n);
        let r = setting_of(epoch.rate);
        let mut x: u64 = 0;
        while let Some(packet) = assigned.next(epoch, &self.unsent, x, full) {
            let y = self.unsent[packet].min(full - x);
            entries[self.count] = Entry {
                packet,
                start: epoch.start,
                r,
                d: epoch.rate.d,
                from: x,
                to: x + y,
                n: epoch.rate.n,
            };
            self.count += 1;
            self.unsent[packet] -= y;
            x += y;
        }
    }
}

// R, the rate N/D rounded up to a whole number (bytes per second). Not by `div_ceil`: tried, and the proof did not close, since its law has quotient and rest apart.
pub fn setting_of(rate: Rate) -> u64
    requires { (0 < rate.d) × (rate.n < 2 ^ 32) × (rate.d < 2 ^ 32) }
    ensures { result ≡ setting rate.n rate.d }
{
    (rate.n + (rate.d - 1)) / rate.d
}
