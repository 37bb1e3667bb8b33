// Packets and epochs alike: windows with a weight, of which some have a rate. What a round does to them.
ghost use Rattle.std.specs.Prelude.{◌≡◌, ℕ, suc, pred, ◌<◌, ◌≤◌, get_or, length};
ghost use Rattle.policy.specs.Figures.{most_points};

use crate::densest::Leader;
use crate::points::Points;
use fractions::Rate;
use packets::packets::Packets;

// A window from `from` till `till` (seconds), and its weight: a packet's bytes on the air, an epoch's seconds.
#[derive(Clone, Copy)]
pub struct Span {
    pub from: u64,
    pub till: u64,
    pub weight: u64,
}

impl Span {
    ghost use Rattle.std.specs.Prelude.{Option};
    ghost use Rattle.policy.specs.Steps.{lies_inside, left_over};

    // Whether it lies inside the interval.
    #[tactic(auto, unfolding(crate::specs::Steps::lies_inside))]
    fn lies_inside(&self, interval: &Leader) -> bool
        ensures { result ≡ lies_inside self.now interval.now.start interval.now.end }
    {
        interval.start <= self.from && self.till <= interval.end
    }

    // The weight where it has no rate yet, else nothing.
    #[tactic(auto, unfolding(crate::specs::Steps::left_over, crate::specs::Windows::unassigned, crate::specs::Windows::only_if))]
    pub(crate) fn left(&self, rate: Option<Rate>) -> u64
        ensures { result ≡ left_over rate self.now.weight }
    {
        match rate {
            None => self.weight,
            Some(_) => 0,
        }
    }
}

// The spans stand at the front of `at`: at most 128. An array and a count, since memory is fixed.
#[derive(Clone, Copy)]
pub struct Spans {
    pub at: [Span; 128],
    pub count: usize,
    ghost few: { count ≤ most_points },
}

impl Spans {
    ghost use Rattle.policy.specs.Points.{packets_of};
    ghost use Rattle.policy.specs.Steps.{Spanned, Shared, neighbours};

    // The packets' windows, with their bytes on the air.
    #[tactic(auto, unfolding(crate::specs::Points::packets_of))]
    pub(crate) fn of_packets(packets: Packets) -> Spans
        ensures { Spanned (packets_of packets.entry.count packets.entry.records.now) result }
    {
        let mut at = [Span {
            from: 0,
            till: 0,
            weight: 0,
        }; 128];
        for i in 0..packets.count {
            at[i] = Span {
                from: packets.arrival(i),
                till: packets.deadline(i),
                weight: packets.air_size(i),
            };
        }
        Spans {
            at,
            count: packets.count,
        }
    }

    // The epochs between neighbouring points, with their seconds. One loop for packets and epochs is no plainer: what it reads would be a closure whose contract
    // says as much as these two.
    #[tactic(auto, unfolding(crate::specs::Steps::neighbours))]
    pub(crate) fn of_epochs(points: &Points) -> Spans
        requires { 0 < points.now.count }
        ensures { Spanned (neighbours (pred points.now.count) points.now.at) result }
    {
        let mut at = [Span {
            from: 0,
            till: 0,
            weight: 0,
        }; 128];
        let count = points.count - 1;
        for k in 0..count {
            at[k] = Span {
                from: points.at[k],
                till: points.at[k + 1],
                weight: points.at[k + 1] - points.at[k],
            };
        }
        Spans { at, count }
    }

    // Those that have no rate yet and lie inside the interval are given the rate.
    pub(crate) fn give(&self, rates: &mut [Option<Rate>], interval: &Leader, rate: Rate)
        requires { self.now.count ≤ length rates.old }
        ensures { Shared self.now rates.old interval.now.start interval.now.end rate rates.new }
    {
        for i in 0..self.count {
            if rates[i].is_none() && self.at[i].lies_inside(interval) {
                rates[i] = Some(rate);
            }
        }
    }
}
