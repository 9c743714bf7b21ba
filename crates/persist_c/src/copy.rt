//! Bytes and numbers are handed out in pieces.

ghost use Rattle.std.specs.Prelude.{◌≡◌, ◌≤◌, ◌++◌, ◌⊎◌, length, drop, take};

/// Copies what stands from a place on, as much as there is room for, to the front of a list, and says how much that is.
pub(crate) fn copy_out<T: Copy>(all: &[T], from: usize, out: &mut [T]) -> usize
    ensures front { out.new ≡ take result (drop from all.now) ++ drop result out.old }
    ensures within { result ≤ length out.old }
    ensures there { result ≤ length (drop from all.now) }
    ensures most { result ≡ length out.old ⊎ result ≡ length (drop from all.now) }
{
    if all.len() <= from {
        return 0;
    }
    let rest = &all[from..];
    let n = if rest.len() < out.len() {
        rest.len()
    } else {
        out.len()
    };
    out[..n].copy_from_slice(&rest[..n]);
    n
}
