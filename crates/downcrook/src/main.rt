// The program: reads one list from standard input and prints its plan, or the refusal. Every answer is the library's; the program adds only the text.
// It reads the count, and then only the bytes that the count calls for, so that an open pipe that holds a whole list is answered at once. Bytes behind
// the list are ignored. Assumes what std assumes of the standard streams.
#![tactic(auto)]

ghost use Rattle.std.specs.Prelude.{◌<◌, ◌≤◌, length};

use packets::judge::MOST_PACKETS;
use packets::list::list_bytes;
use plan::entries::ENTRY_NUMBERS;
use plan::frame::{PLAN_NUMBERS, read_plan};
use planner::plan_list;
use std::io;
use std::io::{Print, Read};
use timetable::Timetable;

// The bytes of a list of 64 packets, and of a frame that holds any plan (bytes).
const LIST_ROOM: usize = 401;

const FRAME_ROOM: usize = 3357;

// A line that cannot be written ends the program with the error.
fn main(rt: HostRuntime) -> io::Result<()> {
    let mut bytes = [0u8; LIST_ROOM];
    let length = take_list(&mut rt.stdin(), &mut bytes);
    let mut frame = [0u8; FRAME_ROOM];
    match plan_list(&bytes[..length], &mut frame) {
        Ok(
            Timetable {
                rounds,
                entries,
                cost,
            },
        ) => {
            let packets = packets_of(bytes[0]);
            println!(rt; "{packets} {rounds} {entries} {cost}")?;
            print_entries(&rt, &frame)
        }
        Err(refusal) => println!(rt; "{refusal}"),
    }
}

// Reads the count and what it calls for to the front of the bytes, and answers how many bytes came. An input that is closed or fails counts as an empty one.
fn take_list<R: Read>(input: &mut R, bytes: &mut [u8]) -> usize
    ensures { result ≤ length bytes.new }
{
    let room = bytes.len();
    if room == 0 {
        return 0;
    }
    let first = read_full(input, &mut bytes[..1]);
    if first == 0 {
        return 0;
    }
    let length = called_for(bytes[0]);
    if length <= 1 {
        return 1;
    }
    if room < length {
        return 1;
    }
    let came = read_full(input, &mut bytes[1..length]);
    1 + came.min(length - 1)
}

// Reads until the bytes are full, the input ends or a read fails, and answers how many bytes came (bytes).
fn read_full<R: Read>(input: &mut R, bytes: &mut [u8]) -> usize
    ensures { result ≤ length bytes.new }
{
    let mut done = 0;
    while done < bytes.len() {
        match input.read(&mut bytes[done..]) {
            Ok(came) if 0 < came => done += came,
            _ => break,
        }
    }
    done
}

// The bytes that a count calls for (bytes): those of the list, or the count's own byte where the list is refused for it.
fn called_for(first: u8) -> usize {
    let count = packets_of(first);
    if MOST_PACKETS < count {
        return 1;
    }
    list_bytes(count)
}

// The packets that a count's byte says: its first 7 bits (packets).
fn packets_of(first: u8) -> usize
    ensures { result < 128 }
{
    usize::from(first / 2)
}

// A line for each entry of the plan in the frame.
fn print_entries<P: Print>(to: &P, frame: &[u8]) -> io::Result<()> {
    let mut numbers = [0u64; PLAN_NUMBERS];
    let Ok(head) = read_plan(frame, &mut numbers) else {
        return Ok(());
    };
    for entry in numbers.chunks_exact(ENTRY_NUMBERS).take(head.entries) {
        print_entry(to, entry)?;
    }
    Ok(())
}

// The line of an entry: packet, epoch start (seconds), R (bytes per second), D, from, to (units of 1/D byte).
fn print_entry<P: Print>(to: &P, entry: &[u64]) -> io::Result<()> {
    let &[packet, start, r, d, from, till] = entry else {
        return Ok(());
    };
    println!(to; "{packet} {start} {r} {d} {from} {till}")
}
