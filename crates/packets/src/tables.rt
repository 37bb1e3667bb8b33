// A table on the wire: a list and a plan are tables whose head begins with the count of their rows. What reading one tests is written here once for both.
// What is tested is said by specs/Wire.antt. Widths are in bits.
ghost use Rattle.std.specs.Prelude.{◌≡◌, ℕ, List, ◌∷◌, ◌+◌, ◌*◌, ◌<◌, ◌≤◌, ◌^◌, length, get_or, IfOk, IfErr, OnErr};
ghost use Rattle.std.proofs.lemmas.List.Edits.{sets};
ghost use Rattle.bits.specs.Table.{total, rows, fields_at, table_bytes, AtMost};
ghost use Rattle.packets.specs.Outcome.{gives, answer_of, no_values, refusal_of, verdict_of, in_order};
ghost use Rattle.packets.specs.Wire.{Form, FormLaws, count_at, count_tests, form_tests, head_of, table_outcome};

use crate::refusal::Refusal;
use bits::{field, table};

// A table's form as code: its widths (bits), the most rows, the refusals of no rows and of too many, and the test of a row.
pub trait Table {
    ghost form: { Form };

    // The width of the count.
    fn count_width() -> usize
        ensures { result ≡ form.count_width };

    // What the widths of the head add up to, the count's among them.
    fn head_width() -> usize
        ensures { result ≡ total (head_of form) };

    // What the widths of a row add up to.
    fn row_width() -> usize
        ensures { result ≡ total form.row };

    // The widths of a row's fields.
    fn row_widths() -> &'static [usize]
        ensures { result.now ≡ form.row };

    // The most rows.
    fn most() -> usize
        ensures { result ≡ form.most };

    // The refusal of no rows.
    fn none() -> Refusal
        ensures { result ≡ form.none };

    // The refusal of too many rows.
    fn many() -> Refusal
        ensures { result ≡ form.many };

    // The test of row i.
    fn judge_row(numbers: &[u64], i: usize) -> Result<(), Refusal>
        requires { length form.row * (i + 1) ≤ length numbers.now }
        ensures { verdict_of result ≡ form.row_test numbers.now i };

    // What each table's form must keep.
    ghost laws: { FormLaws form };
}

// The count at the front of the bytes (rows).
fn count_on<T: Table>(bytes: &[u8]) -> usize
    requires { 0 < length bytes.now }
    ensures value { result ≡ count_at bytes.now (head_of T.form) }
    ensures fits { result < 256 }
{
    field::get(bytes, 0, T::count_width()) as usize
}

// The bytes that a table of so many rows takes (bytes).
pub fn table_bytes<T: Table>(count: usize) -> usize
    requires { count < 256 }
    ensures { result ≡ table_bytes (head_of T.form) T.form.row count }
{
    table::bytes_for(T::head_width() + T::row_width() * count)
}

// The tests of the bytes alone, and the count of what passes them (rows).
fn judge_bytes<T: Table>(bytes: &[u8]) -> Result<usize, Refusal>
    ensures tests { answer_of no_values result ≡ form_tests T.form bytes.now }
    ensures count { IfOk result (λ count. count ≡ count_at bytes.now (head_of T.form)) }
{
    if bytes.len() == 0 {
        return Err(Refusal::Short);
    }
    let count = count_on::<T>(bytes);
    if count == 0 {
        return Err(T::none());
    }
    if T::most() < count {
        return Err(T::many());
    }
    if bytes.len() < table_bytes::<T>(count) {
        return Err(Refusal::Short);
    }
    let end = T::head_width() + T::row_width() * count;
    if 0 < field::get(bytes, end, table::unused_bits(end)) {
        return Err(Refusal::UnusedBit);
    }
    Ok(count)
}

// The tests of each of the first count rows, in order.
pub fn judge_rows<T: Table>(count: usize, numbers: &[u64]) -> Result<(), Refusal>
    requires { length T.form.row * count ≤ length numbers.now }
    ensures { verdict_of result ≡ in_order (T.form.row_test numbers.now) count 0 }
{
    for i in 0..count {
        T::judge_row(numbers, i)?;
    }
    Ok(())
}

// Reading a table into lent room for so many numbers: the tests of its bytes, of its rows in order, then of the room. What passes them has this count
// (rows). NUMBERS is the most numbers that its rows hold.
pub(crate) fn judge_table<T: Table, const NUMBERS: usize>(
    bytes: &[u8],
    room: usize,
) -> Result<usize, Refusal>
    requires held { length T.form.row * T.form.most ≤ NUMBERS }
    requires fits { NUMBERS < 2 ^ 32 }
    ensures passed { IfOk result
        (λ count. (count ≡ count_at bytes.now (head_of T.form))
        × ((values : List ℕ) → gives values ≡ table_outcome T.form bytes.now room values)) }
    ensures refused { IfErr result
        (λ refusal. (values : List ℕ)
        → refusal_of refusal ≡ table_outcome T.form bytes.now room values) }
{
    let count = judge_bytes::<T>(bytes)?;
    let widths = T::row_widths();
    let mut numbers = [0u64; NUMBERS];
    table::read_rows(bytes, T::head_width(), widths, count, &mut numbers);
    judge_rows::<T>(count, &numbers)?;
    if room < widths.len() * count {
        return Err(Refusal::NoRoom);
    }
    Ok(count)
}

// Reads the rows of a table to the front of the lent numbers, and answers its count (rows). What stands behind them stays, and a refusal changes nothing.
pub fn read_table<T: Table, const NUMBERS: usize>(
    bytes: &[u8],
    lent: &mut [u64],
) -> Result<usize, Refusal>
    requires held { length T.form.row * T.form.most ≤ NUMBERS }
    requires fits { NUMBERS < 2 ^ 32 }
    ensures passed { IfOk result
        (λ count. (count ≡ count_at bytes.now (head_of T.form))
        × ((values : List ℕ) → gives values ≡ table_outcome T.form bytes.now (length lent.old) values)) }
    ensures refused { IfErr result
        (λ refusal. (values : List ℕ)
        → refusal_of refusal ≡ table_outcome T.form bytes.now (length lent.old) values) }
    ensures filled { IfOk result (λ count. lent.new ≡ sets lent.old 0 (fields_at bytes.now (total (head_of T.form)) (rows count T.form.row))) }
    ensures kept { OnErr result (lent.new ≡ lent.old) }
{
    let count = judge_table::<T, NUMBERS>(bytes, lent.len())?;
    table::read_rows(bytes, T::head_width(), T::row_widths(), count, lent);
    Ok(count)
}

// The tests of a table's count in memory, before those of its rows: no rows, too many, fewer numbers than the count calls for.
pub fn judge_count<T: Table>(count: usize, numbers: usize) -> Result<(), Refusal>
    ensures { verdict_of result ≡ count_tests T.form count numbers }
{
    if count == 0 {
        return Err(T::none());
    }
    if T::most() < count {
        return Err(T::many());
    }
    if numbers < T::row_widths().len() * count {
        return Err(Refusal::Short);
    }
    Ok(())
}
