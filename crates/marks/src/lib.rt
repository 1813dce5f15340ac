// The lost map: which positions of a word are marked as lost, one bit for each, eight to a byte, lowest first.
// A map has room for the largest code from the start, so that nothing allocates later.
#![tactic(auto)]

ghost use Rattle.std.specs.Prelude.{◌≡◌, ◌+◌, ◌/◌, ◌%◌, ◌^◌, ◌<◌, ◌≤◌, vec_len, vec_capacity, slice_index};

mod bytes;
mod ops;

pub use bytes::spread;

// The marks of n positions, of which there are 928 at most. No bit past them is set.
#[derive(Drop)]
pub struct LostMap {
    n: u32,
    bytes: Vec<u8>,
    ghost few: { n ≤ 928 },
    ghost long: { vec_len bytes ≡ (n + 7) / 8 },
    ghost tidy: { slice_index bytes.items (n / 8) < 2 ^ (n % 8) },
    ghost room: { 116 ≤ vec_capacity bytes },
}
