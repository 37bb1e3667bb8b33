// Rows of fields that follow one another, read into numbers and written from numbers.
// What a table is is said by specs/Table.antt. Positions and widths are in bits.
ghost use Rattle.std.specs.Prelude.{◌≡◌, ◌+◌, ◌*◌, ◌^◌, ◌<◌, ◌≤◌, ◌++◌, length, take};
ghost use Rattle.std.proofs.lemmas.List.Edits.{sets};
ghost use Rattle.bits.specs.Table.{total, rows, fields_at, put_fields, bytes_for, unused_bits, field_widths, table_bytes, write_table, AtMost};

use crate::field;

// The bytes that so many bits take (bytes).
pub fn bytes_for(bits: usize) -> usize
    requires { bits < 2 ^ 32 }
    ensures { result ≡ bytes_for bits }
{
    bits.div_ceil(8)
}

// The unused bits of the last of these bytes (bits).
pub fn unused_bits(bits: usize) -> usize
    ensures { (result ≡ unused_bits bits) × (result < 8) }
{
    (8 - bits % 8) % 8
}

// Reads count rows of fields of these widths from bit position at into the front of out. What stands behind them in out stays.
pub fn read_rows(bytes: &[u8], at: usize, widths: &[usize], count: usize, out: &mut [u64])
    requires narrow { AtMost 64 widths.now }
    requires inside_bytes { at + total (rows count widths.now) ≤ 8 * length bytes.now }
    requires position_fits { at + total (rows count widths.now) < 2 ^ 64 }
    requires inside_out { count * length widths.now ≤ length out.old }
    ensures { out.new ≡ sets out.old 0 (fields_at bytes.now at (rows count widths.now)) }
{
    let mut position = at;
    // rows by number: a row may have no fields, and there are no chunks of 0
    for row in 0..count {
        position = read_row(bytes, position, widths, &mut out[row * widths.len()..]);
    }
}

// Reads one row from bit position at into the front of out, and returns the position behind it.
#[tactic(auto, using(crate::proofs::Rows::total_next))]
fn read_row(bytes: &[u8], at: usize, widths: &[usize], out: &mut [u64]) -> usize
    requires narrow { AtMost 64 widths.now }
    requires inside_bytes { at + total widths.now ≤ 8 * length bytes.now }
    requires position_fits { at + total widths.now < 2 ^ 64 }
    requires inside_out { length widths.now ≤ length out.old }
    ensures { (result ≡ at + total widths.now) × (out.new ≡ sets out.old 0 (fields_at bytes.now at widths.now)) }
{
    let mut position = at;
    // out by index: a proof knows nothing of what is written through a zip with iter_mut()
    for (field, &width) in widths.iter().enumerate() {
        out[field] = field::get(bytes, position, width);
        position += width;
    }
    position
}

// Bytes, widths and values stay the caller's slices, and what is asked of them stays in clauses: the widths are constants of the layers above, and a struct
// around them would be built at each call and taken apart in it.

// Writes a table to the front of the bytes: the head, whose widths are in lead, then count rows, whose widths are in row, from the front of values,
// then zero in the unused bits. The bytes behind it stay.
#[tactic(auto, using(crate::proofs::Tables::table_parts))]
pub fn write_table(
    bytes: &mut [u8],
    lead: &[usize],
    head: &[u64],
    row: &[usize],
    count: usize,
    values: &[u64],
)
    requires narrow { AtMost 64 lead.now × AtMost 64 row.now }
    requires inside_bytes { table_bytes lead.now row.now count ≤ length bytes.old }
    requires position_fits { total (field_widths lead.now row.now count) < 2 ^ 32 }
    requires values_given { (length lead.now ≡ length head.now) × (count * length row.now ≤ length values.now) }
    ensures { bytes.new
        ≡ write_table
        bytes.old
        lead.now
        row.now
        count
        (head.now ++ take (count * length row.now) values.now) }
{
    let head_end = write_row(bytes, 0, lead, head);
    let end = write_rows(bytes, head_end, row, count, values);
    field::put(bytes, end, unused_bits(end), 0);
}

// Writes count rows of fields of these widths at bit position at from the front of values, and returns the position behind them. Every other bit
// stays.
fn write_rows(bytes: &mut [u8], at: usize, widths: &[usize], count: usize, values: &[u64]) -> usize
    requires narrow { AtMost 64 widths.now }
    requires inside_bytes { at + total (rows count widths.now) ≤ 8 * length bytes.old }
    requires position_fits { at + total (rows count widths.now) < 2 ^ 64 }
    requires values_given { count * length widths.now ≤ length values.now }
    ensures { (result ≡ at + total (rows count widths.now))
        × (bytes.new ≡ put_fields bytes.old at (rows count widths.now) values.now) }
{
    let mut position = at;
    for row in 0..count {
        position = write_row(bytes, position, widths, &values[row * widths.len()..]);
    }
    position
}

// Writes one row at bit position at from the front of values, and returns the position behind it. It stays beside its twin read_row: one changes the
// numbers and one the bytes, so a row of both takes a closure for the step whose contract is as long as the two.
fn write_row(bytes: &mut [u8], at: usize, widths: &[usize], values: &[u64]) -> usize
    requires narrow { AtMost 64 widths.now }
    requires inside_bytes { at + total widths.now ≤ 8 * length bytes.old }
    requires position_fits { at + total widths.now < 2 ^ 64 }
    requires values_given { length widths.now ≤ length values.now }
    ensures { (result ≡ at + total widths.now) × (bytes.new ≡ put_fields bytes.old at widths.now values.now) }
{
    let mut position = at;
    for (&width, &value) in widths.iter().zip(values) {
        field::put(bytes, position, width, value);
        position += width;
    }
    position
}
