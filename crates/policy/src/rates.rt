// The rounds: each takes the densest interval and gives its packets and epochs its density, until no packet is unassigned.
ghost use Rattle.std.specs.Prelude.{◌<◌};

use crate::densest::Leader;
use crate::points::Points;
use crate::setup::Setup;
use fractions::{Rate, lowest};
use packets::judge::MOST_PACKETS;
use packets::packets::Packets;

// What each packet and each epoch was given (bytes per second); None is nothing yet.
#[derive(Clone, Copy)]
pub struct Gifts {
    pub packets: [Option<Rate>; MOST_PACKETS],
    pub epochs: [Option<Rate>; 128],
}

// The rates of a list: its event points (seconds), what each packet and each epoch was given (bytes per second), and the number of rounds.
#[derive(Clone, Copy)]
pub struct Rates {
    pub points: Points,
    pub packets: [Option<Rate>; MOST_PACKETS],
    pub epochs: [Option<Rate>; 128],
    pub rounds: usize,
}

ghost use Rattle.policy.specs.Steps.{Rated, Taken};

// The rates of a list.
pub fn rates_of(packets: Packets) -> Rates
    ensures { Rated packets.entry.count packets.entry.records.now result }
{
    let setup = Setup::of(packets);
    let mut gifts = Gifts {
        packets: [None; MOST_PACKETS],
        epochs: [None; 128],
    };
    let mut rounds = 0;
    while let Some(leader) = setup.leader(&gifts) {
        gifts.take(&setup, &leader);
        rounds += 1;
    }
    Rates {
        points: setup.points,
        packets: gifts.packets,
        epochs: gifts.epochs,
        rounds,
    }
}

impl Gifts {
    // The round takes the leader: what it holds is given its load over its length in lowest terms.
    fn take(&mut self, setup: &Setup, leader: &Leader)
        requires { 0 < leader.now.len }
        ensures { Taken setup.now leader.now self.old self.new }
    {
        let rate = lowest(leader.load, leader.len);
        setup.packets.give(&mut self.packets, leader, rate);
        setup.epochs.give(&mut self.epochs, leader, rate);
    }
}
