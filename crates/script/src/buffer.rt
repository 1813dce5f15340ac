ghost use Rattle.std.specs.Prelude.{◌≤◌, vec_len, vec_capacity};

mod ops;

// The line being read. However long it is, no more is kept than shows that it is too long.
#[derive(Drop)]
pub struct LineBuffer {
    bytes: Vec<u8>,
    ghost few: { vec_len bytes ≤ 6001 },
    ghost room: { 6001 ≤ vec_capacity bytes },
}
