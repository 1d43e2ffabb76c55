//! How a call fills the buffers of a caller.

ghost use Rattle.cfgx_c.specs.Buffer.{Fills};

/// Copies `items` to the start of `buffer` if they all fit; otherwise `buffer` stays as it was.
/// Returns the number of items.
pub(crate) fn fill<T: Copy>(buffer: &mut [T], items: &[T]) -> usize
    ensures { Fills items.now buffer.old buffer.new result }
{
    let needed = items.len();
    if needed <= buffer.len() {
        buffer[..needed].copy_from_slice(items);
    }
    needed
}
