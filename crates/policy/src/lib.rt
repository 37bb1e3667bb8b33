// The policy: from packets in memory to the rate of every epoch, by Densest Interval First (document 01, "Epochs and rates").
// What is promised is said by specs/Answer.antt, over the rounds of specs/Rounds.antt.
#![tactic(auto)]

pub mod densest;
pub mod points;
pub mod rates;
pub mod row;
pub mod setup;
pub mod spans;

ghost use Rattle.std.specs.Prelude.{◌≡◌, ◌*◌, ◌≤◌, length};
ghost use Rattle.policy.specs.Answer.{EpochsRated, epoch_numbers, epoch_rate_of, given_by, given_of, epoch_rows, given_at, overwritten, shown_d, shown_n};
ghost use Rattle.policy.specs.Figures.{most_points};

use crate::rates::{Rates, rates_of};
use fractions::Rate;
use packets::packets::Packets;
use packets::refusal::Refusal;

// The numbers that are written for an epoch: its start (seconds), N and D (bytes per second).
pub const EPOCH_NUMBERS: usize = 3;

// The number of epochs, each with three numbers in the lent room, and the number of rounds.
#[derive(Clone, Copy, PartialEq, Eq, Debug)]
pub struct RatesSize {
    pub epochs: usize,
    pub rounds: usize,
}

// What one epoch was given: nothing to send, or a rate (bytes per second). An enum of its own and no Option, since the rules want a silent case here
// (docs/DECISIONS.md, "Forms").
#[derive(Clone, Copy, PartialEq, Eq, Debug)]
pub enum EpochRate {
    Silent,
    Carries(Rate),
}

impl From<Option<Rate>> for EpochRate {
    ghost from_gives = { λ gift rate. epoch_rate_of rate ≡ given_of gift };

    fn from(gift: Option<Rate>) -> EpochRate {
        match gift {
            None => EpochRate::Silent,
            Some(rate) => EpochRate::Carries(rate),
        }
    }
}

// What N and D say of an epoch (bytes per second): a D of 0 is a silent epoch.
pub fn epoch_rate(n: u64, d: u64) -> EpochRate
    ensures { epoch_rate_of result ≡ given_by n d }
{
    if d == 0 {
        return EpochRate::Silent;
    }
    EpochRate::Carries(Rate { n, d })
}

// The rate of every epoch (bytes per second, lowest terms; 0/1 for a silent one) with its start (seconds), and the number of rounds.
// What is lent past the last epoch stays as it was, and all of it after a refusal: 2, 3, 1, the records, then 8.
pub fn epoch_rates(count: usize, records: &[u64], rates: &mut [u64]) -> Result<RatesSize, Refusal>
    ensures { EpochsRated count records.now rates.old result rates.new }
{
    let packets = Packets::accept(count, records)?;
    let found = rates_of(packets);
    let epochs = found.points.count - 1;
    if rates.len() < EPOCH_NUMBERS * epochs {
        return Err(Refusal::NoRoom);
    }
    write_rows(epochs, &found, rates);
    Ok(RatesSize {
        epochs,
        rounds: found.rounds,
    })
}

// Start, N and D of each epoch, from the front of the lent room.
fn write_rows(epochs: usize, found: &Rates, rates: &mut [u64])
    requires { (epoch_numbers * epochs ≤ length rates.old) × (epochs ≤ most_points) }
    ensures { rates.new ≡ overwritten (epoch_rows found.now.points.at (given_at found.now.epochs) epochs) rates.old }
{
    for k in 0..epochs {
        let at = EPOCH_NUMBERS * k;
        let (n, d) = shown(found.epochs[k].into());
        rates[at] = found.points.at[k];
        rates[at + 1] = n;
        rates[at + 2] = d;
    }
}

// N and D as they are shown.
#[tactic(auto, unfolding(crate::specs::Answer::shown_n, crate::specs::Answer::shown_d))]
fn shown(rate: EpochRate) -> (u64, u64)
    ensures { (result.0 ≡ shown_n (epoch_rate_of rate)) × (result.1 ≡ shown_d (epoch_rate_of rate)) }
{
    match rate {
        EpochRate::Silent => (0, 1),
        EpochRate::Carries(rate) => (rate.n, rate.d),
    }
}
