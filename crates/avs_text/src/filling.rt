// Blocks that a pattern fills.
ghost use Rattle.std.specs.Prelude.{◌≡◌, ◌+◌, ◌*◌, ◌/◌, ◌%◌, ◌++◌, ◌<◌, ◌≤◌, length, take, drop, replicate, slice_index, EachIndex, IsTrue};
ghost use Rattle.avs_seg.specs.Image.{blocks_of};
ghost use Rattle.avs_model.specs.Filling.{fill, is_pattern_length};

use avs_model::Pattern;

/// Fills each block of `out` with the pattern, again and again. `out` is whole blocks, maybe none. Takes no memory.
pub fn fill(pattern: &Pattern, out: &mut [u8])
    requires { 512 * (length out.old / 512) ≡ length out.old }
    ensures { blocks_of out.new ≡ replicate (length out.old / 512) (fill pattern.now) }
{
    let bytes = pattern.as_slice();
    if let [byte] = bytes {
        out.fill(*byte);
        return;
    }
    if out.is_empty() {
        return;
    }
    out[..bytes.len()].copy_from_slice(bytes);
    repeat_front(out, bytes.len());
}

// Repeats the first `len` bytes up to the end, each time with all that stands so far.
fn repeat_front(out: &mut [u8], len: usize)
    requires pattern { IsTrue (is_pattern_length len) }
    requires some { 0 < length out.old }
    requires whole { 512 * (length out.old / 512) ≡ length out.old }
    ensures same_length { length out.new ≡ length out.old }
    ensures front { take len out.new ≡ take len out.old }
    ensures repeats { EachIndex out.new (λ i. slice_index out.new i ≡ slice_index out.new (i % len)) }
{
    let mut done = len;
    while done < out.len() {
        let more = done.min(out.len() - done);
        copy_front(out, done, more);
        done += more;
    }
}

// Copies the first `more` bytes to where the first `done` end.
fn copy_front(out: &mut [u8], done: usize, more: usize)
    requires part { more ≤ done }
    requires within { done + more ≤ length out.old }
    ensures { out.new ≡ take done out.old ++ (take more out.old ++ drop (done + more) out.old) }
{
    let (front, rest) = out.split_at_mut(done);
    rest[..more].copy_from_slice(&front[..more]);
}
