// What the rounds work on, worked out once for a list: its points, the windows of its packets and epochs, and the row of its packets by rising deadline.
ghost use Rattle.policy.specs.Ranges.{Ready};

use crate::points::Points;
use crate::row::{Due, by_deadline};
use crate::spans::Spans;
use packets::judge::MOST_PACKETS;
use packets::packets::Packets;

// The points (seconds), the packets' and the epochs' windows, and the row.
#[derive(Clone, Copy)]
pub struct Setup {
    pub points: Points,
    pub packets: Spans,
    pub epochs: Spans,
    pub row: [Due; MOST_PACKETS],
    ghost ready: { Ready points packets epochs row },
}

impl Setup {
    ghost use Rattle.policy.specs.Steps.{SetUp};

    // What the rounds of a list work on.
    pub(crate) fn of(list: Packets) -> Setup
        ensures { SetUp list.entry.count list.entry.records.now result.points result.packets result.epochs result.row }
    {
        let points = Points::of(list);
        let packets = Spans::of_packets(list);
        let epochs = Spans::of_epochs(&points);
        let row = by_deadline(&packets, &points);
        Setup {
            points,
            packets,
            epochs,
            row,
        }
    }
}
