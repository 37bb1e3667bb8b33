// The list on the wire: bytes into lent records, and packets in memory into lent bytes.
// What each call comes to, and what it leaves in every lent buffer, is said by specs/List.antt.
ghost use Rattle.std.specs.Prelude.{◌≡◌, ◌<◌};
ghost use Rattle.packets.specs.Forms.{list_form, list_laws};
ghost use Rattle.packets.specs.List.{list_bytes, ListJudged, ListRead, ListWritten};

use crate::judge::{MOST_PACKETS, RECORD_NUMBERS, judge_packets, judge_record};
use crate::refusal::Refusal;
use crate::tables;
use crate::tables::Table;
use bits::table;

// The width of the count (bits), by itself and as a table's head.
const COUNT_WIDTH: usize = 7;

const COUNT_WIDTHS: [usize; 1] = [7];

// The widths of a record's size, arrival and deadline (bits), and what they add up to (bits).
const RECORD_WIDTHS: [usize; 3] = [16, 17, 17];

const RECORD_WIDTH: usize = 50;

// The numbers of a list of 64 packets.
pub const LIST_NUMBERS: usize = 192;

// A list as a table on the wire: a count, then a record for each packet.
pub struct ListTable;

impl Table for ListTable {
    ghost form = { list_form };

    ghost laws = { list_laws };

    fn count_width() -> usize {
        COUNT_WIDTH
    }

    #[tactic(auto, unfolding(bits::specs::Table::total))]
    fn head_width() -> usize {
        COUNT_WIDTH
    }

    #[tactic(auto, unfolding(bits::specs::Table::total))]
    fn row_width() -> usize {
        RECORD_WIDTH
    }

    fn row_widths() -> &'static [usize] {
        &RECORD_WIDTHS
    }

    fn most() -> usize {
        MOST_PACKETS
    }

    fn none() -> Refusal {
        Refusal::NoPackets
    }

    fn many() -> Refusal {
        Refusal::TooManyPackets
    }

    fn judge_row(numbers: &[u64], i: usize) -> Result<(), Refusal> {
        let at = RECORD_NUMBERS * i;
        judge_record(i, numbers[at], numbers[at + 1], numbers[at + 2])
    }
}

// The size of a list on the wire: its packets and the bytes that it takes.
#[derive(Clone, Copy, PartialEq, Eq, Debug)]
pub struct ListSize {
    pub count: usize,
    pub bytes: usize,
}

// What reading a list from these bytes into room for so many numbers comes to. It changes nothing.
pub fn judge_list(bytes: &[u8], room: usize) -> Result<ListSize, Refusal>
    ensures { ListJudged bytes.now room result }
{
    let count = tables::judge_table::<ListTable, LIST_NUMBERS>(bytes, room)?;
    Ok(ListSize {
        count,
        bytes: list_bytes(count),
    })
}

// Reads the list at the front of the bytes into the lent records, three numbers a packet, and hands back the bytes behind it. A refusal hands back the
// whole input, as the rules have it (`rest_after`), and changes nothing that was lent.
pub fn read_list<'a>(bytes: &'a [u8], records: &mut [u64]) -> &'a [u8]
    ensures { ListRead bytes.now records.old result.now records.new }
{
    let Ok(count) = tables::read_table::<ListTable, LIST_NUMBERS>(bytes, records) else {
        return bytes;
    };
    &bytes[list_bytes(count)..]
}

// Writes packets in memory as a list to the front of the lent bytes, and answers how many bytes it takes. The bytes behind it stay, and a refusal changes
// nothing.
pub fn write_list(count: usize, records: &[u64], bytes: &mut [u8]) -> Result<usize, Refusal>
    ensures { ListWritten count records.now bytes.old result bytes.new }
{
    judge_packets(count, records)?;
    let used = list_bytes(count);
    if bytes.len() < used {
        return Err(Refusal::NoRoom);
    }
    let head = [count as u64];
    table::write_table(bytes, &COUNT_WIDTHS, &head, &RECORD_WIDTHS, count, records);
    Ok(used)
}

// The bytes that a list of so many packets takes (bytes).
pub fn list_bytes(count: usize) -> usize
    requires { count < 128 }
    ensures { result ≡ list_bytes count }
{
    tables::table_bytes::<ListTable>(count)
}
