// The bytes of a map, apart from how many positions it has.
ghost use Rattle.std.specs.Prelude.{◌≡◌, ℕ, ◌+◌, ◌/◌, ◌<◌, ◌≤◌, true, ◌&&◌, length, Ok, Err, is_ok, if◌then◌else◌, count_by, nat_le};
ghost use Rattle.marks.specs.Marks.{bit_at, marks, tidy, Clean};

use code::{POSITIONS, Refusal};

// How many bytes n positions take.
pub(crate) fn bytes_for(n: u32) -> usize
    ensures { result ≡ (n + 7) / 8 }
{
    n.div_ceil(8) as usize
}

// Whether the bit of a position is set.
pub(crate) fn has_bit(map: &[u8], pos: u32) -> bool
    requires { pos / 8 < length map.now }
    ensures { result ≡ bit_at map.now pos }
{
    (map[(pos / 8) as usize] >> (pos % 8)) % 2 == 1
}

// Whether these are the bytes of n positions, with no bit past them.
pub(crate) fn is_tidy(map: &[u8], n: u32) -> bool
    ensures value { result ≡ tidy n map.now }
    ensures clean { result ≡ true → Clean n map.now }
{
    map.len() == bytes_for(n) && (n % 8 == 0 || map[(n / 8) as usize] < 1 << (n % 8))
}

// Writes for each position of `out` whether it is marked.
pub(crate) fn write_marks(map: &[u8], out: &mut [bool])
    requires few { length out.old ≤ 928 }
    requires long { (length out.old + 7) / 8 ≤ length map.now }
    ensures { out.new ≡ marks (length out.old) map.now }
{
    for (pos, mark) in out.iter_mut().enumerate() {
        *mark = has_bit(map, pos as u32);
    }
}

// The same for bytes from outside: those that are not the bytes of so many positions are refused, and so are too many
// positions; nothing changes then.
pub fn spread(map: &[u8], out: &mut [bool]) -> Result<(), Refusal>
    ensures value { result ≡ (if nat_le (length out.old) 928 && tidy (length out.old) map.now then Ok tt else Err Refusal.Map) }
    ensures after { out.new ≡ (if is_ok result then marks (length out.old) map.now else out.old) }
{
    if out.len() > POSITIONS || !is_tidy(map, out.len() as u32) {
        return Err(Refusal::Map);
    }
    write_marks(map, out);
    Ok(())
}

// How many bits are set, which is how many positions are marked.
pub(crate) fn count_bits(map: &[u8]) -> u32
    requires { length map.now ≤ 116 }
    ensures { (n : ℕ) → Clean n map.now → result ≡ count_by (λ b. b) (marks n map.now) }
{
    map.iter().map(|b| b.count_ones()).sum()
}
