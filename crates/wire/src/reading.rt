// Numbers out of a part of the bytes, four bytes each, low byte first.
ghost use Rattle.std.specs.Prelude.{◌≡◌, ℕ, ◌+◌, ◌<◌, ◌≤◌, length, slice_index, slice_index_or};
ghost use Rattle.wire.specs.Bytes.{four_at, number_of, numbers_in};
ghost use Rattle.wire.specs.Rows.{NumberAt};

use std::array;

// The number in the four bytes from a place on.
fn number_at(bytes: &[u8], at: usize) -> u32
    requires { at + 4 ≤ length bytes.now }
    ensures { result ≡ number_of (four_at bytes.now at) }
{
    u32::from_le_bytes([bytes[at], bytes[at + 1], bytes[at + 2], bytes[at + 3]])
}

// How many numbers a list has, of which this part of the bytes is handed on.
pub fn leg_count(part: &[u8]) -> usize
    ensures { result ≡ length (numbers_in part.now) }
{
    part.len() / 4
}

// Its number i, counted from 0; none beyond the last.
pub fn leg_at(part: &[u8], i: usize) -> Option<u32>
    ensures { NumberAt part.now i result }
{
    if i >= leg_count(part) {
        return None;
    }
    Some(number_at(part, i * 4))
}

// Its first numbers, as many as are asked for; 0 beyond the last.
pub fn first_numbers<const N: usize>(part: &[u8]) -> [u32; N]
    ensures { (i : ℕ) → i < N → slice_index result i ≡ slice_index_or (numbers_in part.now) i 0 }
{
    array::from_fn(
        |i| -> u32
            ensures { result ≡ slice_index_or (numbers_in part.entry.now) i 0 }
        { leg_at(part, i).unwrap_or(0) },
    )
}
