// An entry of the timetables, and the seven numbers that stand for it in lent room.
ghost use Rattle.std.specs.Prelude.{◌≡◌, ◌*◌, ◌≤◌, length, map};
ghost use Rattle.policy.specs.Answer.{overwritten};
ghost use Rattle.timetable.specs.Steps.{entry_of, first_numbers};

// The numbers of an entry in lent room.
pub const ENTRY_NUMBERS: usize = 7;

// The most entries of a timetable: as many as packets and epochs, 64 and 127 (entries).
pub const MOST_ENTRIES: usize = 191;

// What one packet sends in one go in one epoch.
#[derive(Clone, Copy, Default, PartialEq, Eq, Debug)]
pub struct Entry {
    // the packet's number
    pub packet: usize,
    // the epoch's start (seconds)
    pub start: u64,
    // the radio's setting R (bytes per second)
    pub r: u64,
    // D of the exact rate N/D (bytes per second)
    pub d: u64,
    // the offsets where the stretch begins and ends (units of 1/D byte from the epoch's start)
    pub from: u64,
    pub to: u64,
    // N of the exact rate N/D (bytes per second)
    pub n: u64,
}

// The seven numbers of an entry: packet, epoch start (seconds), R (bytes per second), D, from and to (units of 1/D byte), N.
impl From<Entry> for [u64; ENTRY_NUMBERS] {
    ghost use Rattle.timetable.specs.Steps.{row_of};

    ghost from_gives = { λ entry numbers. numbers ≡ row_of entry };

    fn from(entry: Entry) -> [u64; ENTRY_NUMBERS] {
        [
            entry.packet as u64,
            entry.start,
            entry.r,
            entry.d,
            entry.from,
            entry.to,
            entry.n,
        ]
    }
}

// The first N numbers of each entry go to the front of what is lent: all seven for the timetables, six for a plan. What stands behind them stays.
pub fn write_entries<const N: usize>(entries: &[Entry], lent: &mut [u64])
    requires few { N ≤ ENTRY_NUMBERS }
    requires room { N * length entries.now ≤ length lent.old }
    ensures { lent.new ≡ overwritten (first_numbers N (map entry_of entries.now)) lent.old }
{
    for (i, entry) in entries.iter().enumerate() {
        let at = N * i;
        let numbers: [u64; ENTRY_NUMBERS] = (*entry).into();
        lent[at..at + N].copy_from_slice(&numbers[..N]);
    }
}
