// The whole timetable of accepted packets: epoch after epoch, then the radio cost.
ghost use Rattle.timetable.specs.Steps.{Planned};

use crate::Timetable;
use crate::assigned::Assigned;
use crate::entry::{Entry, MOST_ENTRIES};
use crate::epoch::{Epoch, Sheet};
use packets::packets::Packets;
use policy::EpochRate;
use policy::rates::{Rates, rates_of};

// The timetables of accepted packets. The entries go to the front of the lent array, which has room for those of any list.
pub fn made_of(packets: Packets, entries: &mut [Entry; MOST_ENTRIES]) -> Timetable
    ensures { Planned packets.entry.count packets.entry.records.now entries.new result }
{
    let Rates {
        points,
        packets: rates,
        epochs,
        rounds,
    } = rates_of(packets);
    let assigned = Assigned {
        packets,
        rates: &rates,
    };
    let mut sheet = Sheet {
        unsent: assigned.units_at_first(),
        count: 0,
    };
    for k in 0..points.count - 1 {
        match EpochRate::from(epochs[k]) {
            EpochRate::Silent => {}
            EpochRate::Carries(rate) => {
                let epoch = Epoch {
                    number: k,
                    start: points.at[k],
                    end: points.at[k + 1],
                    rate,
                };
                sheet.fill(epoch, &assigned, entries);
            }
        }
    }
    Timetable {
        rounds,
        entries: sheet.count,
        cost: assigned.radio_cost(),
    }
}
