//! A text in the caller's memory.

ghost use Rattle.std.specs.Prelude.{◌≡◌, ◌<◌, ◌≤◌, IsTrue, length, take, drop};

/// Copies a text to the front of `out`, if there is room for all of it; `out_len` is its size then.
pub(crate) fn put(text: &[u8], out: &mut [u8], out_len: &mut usize) -> bool
    ensures text { IsTrue result → take out_len.new out.new ≡ text.now }
    ensures size { IsTrue result → out_len.new ≤ length out.new }
    ensures behind { drop out_len.new out.new ≡ drop out_len.new out.old }
    ensures kept { ¬ IsTrue result → (out.new ≡ out.old) × (out_len.new ≡ out_len.old) }
    ensures room { ¬ IsTrue result → length out.old < length text.now }
{
    if out.len() < text.len() {
        return false;
    }
    out[..text.len()].copy_from_slice(text);
    *out_len = text.len();
    true
}
