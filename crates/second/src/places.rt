// Reading and writing at any place, so that nothing has to be shown of it.
ghost use Rattle.std.specs.Prelude.{◌≡◌, slice_index, slice_set};

// What stands at a place, and 0 past the end.
pub fn at(xs: &[u32], i: usize) -> u32
    ensures { result ≡ slice_index xs.now i }
{
    xs.get(i).copied().unwrap_or(0)
}

// Writes at a place, and nothing past the end.
pub fn put(xs: &mut [u32], i: usize, x: u32)
    ensures { xs.new ≡ slice_set xs.old i x }
{
    if i < xs.len() {
        xs[i] = x;
    }
}
