// The search for a line feed.
ghost use Rattle.std.specs.Prelude.{◌≡◌, ◌≤◌, [], length, take, IfNone, IfSome};
ghost use Rattle.pst_io.specs.Text.{IsFirstFeed, whole_lines};

use memchr::memchr;

// The index of the first line feed. None of those before `searched` is one.
pub fn find_feed(bytes: &[u8], searched: usize) -> Option<usize>
    requires within { searched ≤ length bytes.now }
    requires clear { whole_lines (take searched bytes.now) ≡ [] }
    ensures found { IfSome result (λ i. (searched ≤ i) × IsFirstFeed i bytes.now) }
    ensures none { IfNone result (whole_lines bytes.now ≡ []) }
{
    let behind = memchr(b'\n', &bytes[searched..])?;
    Some(searched + behind)
}
