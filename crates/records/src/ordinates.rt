// A mode's ordinates, from bytes to numbers.
ghost use Rattle.std.specs.Prelude.{◌≡◌, ℕ, ◌<◌, ◌≤◌, take, pos, slice_index_or};
ghost use Rattle.records.specs.Ordinates.{ordinate_at, ordinates_at};

use std::array;

// The ordinate at place `k`; 0 where the bytes have ended.
fn ordinate(bytes: &[u8], k: usize) -> i16
    requires { k < 40 }
    ensures { result ≡ ordinate_at bytes.now k }
{
    match bytes.get(2 * k..2 * k + 2) {
        Some([high, low]) => i16::from_be_bytes([*high, *low]),
        _ => 0,
    }
}

// The first 40 ordinates; 0 where the bytes have ended.
pub fn decode_ordinates(bytes: &[u8]) -> [i16; 40]
    ensures each { (k : ℕ) → k < 40 → slice_index_or result k (pos 0) ≡ ordinate_at bytes.now k }
    ensures first { (n : ℕ) → n ≤ 40 → take n result ≡ ordinates_at bytes.now n }
{
    array::from_fn(|k| ordinate(bytes, k))
}
