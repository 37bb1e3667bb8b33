// One operation reads and one writes a field of bits, most significant bit first, a byte at a time.
// What a field is is said by specs/Field.antt. Positions and widths are in bits.
ghost use Rattle.std.specs.Prelude.{◌≡◌, ◌+◌, ◌*◌, ◌/◌, ◌%◌, ◌^◌, ◌<◌, ◌≤◌, length};
ghost use Rattle.bits.specs.Field.{field_at, put_field};

use crate::table::unused_bits;

// The field of width bits at bit position at.
pub fn get(bytes: &[u8], at: usize, width: usize) -> u64
    requires { (width ≤ 64) × (at + width ≤ 8 * length bytes.now) × (at + width < 2 ^ 64) }
    ensures { (result ≡ field_at bytes.now at width) × (result < 2 ^ width) }
{
    let end = at + width;
    // the bytes that the field touches, at most 9, as one number
    let mut whole = 0u128;
    for &byte in &bytes[at / 8..end.div_ceil(8)] {
        whole = (whole << 8) + u128::from(byte);
    }
    ((whole >> unused_bits(end)) & ((1u128 << width) - 1)) as u64
}

// Puts the last width binary digits of value into the field at bit position at; every other bit stays.
pub fn put(bytes: &mut [u8], at: usize, width: usize, value: u64)
    requires { (width ≤ 64) × (at + width ≤ 8 * length bytes.old) × (at + width < 2 ^ 64) }
    ensures { bytes.new ≡ put_field bytes.old at width value }
{
    let end = at + width;
    for i in at / 8..end.div_ceil(8) {
        let from = at.max(8 * i);
        let above = from - 8 * i;
        let taken = (end - from).min(8 - above);
        let left = end - from - taken;
        bytes[i] = patch(bytes[i], 8 - above - taken, taken, cut(value, left, taken));
    }
}

// A byte with value in its taken bits that stand above the last below bits; its other bits stay.
fn patch(byte: u8, below: usize, taken: usize, value: u64) -> u8
    requires { (below + taken ≤ 8) × (value < 2 ^ taken) }
    ensures { result ≡ (byte / 2 ^ (below + taken) * 2 ^ taken + value) * 2 ^ below + byte % 2 ^ below }
{
    let whole = u64::from(byte);
    let old = cut(whole, below, taken);
    (whole - (old << below) + (value << below)) as u8
}

// The taken binary digits of value that stand above its last below digits.
fn cut(value: u64, below: usize, taken: usize) -> u64
    requires { (below < 64) × (taken ≤ 8) }
    ensures { (result ≡ value / 2 ^ below % 2 ^ taken) × (result < 2 ^ taken) }
{
    (value >> below) % (1u64 << taken)
}
