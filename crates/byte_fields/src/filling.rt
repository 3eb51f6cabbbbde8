//! Bytes that are known only after those that stand behind them.

ghost use Rattle.std.specs.Prelude.{◌≡◌, ◌+◌, ◌++◌, ◌≤◌, length, take, drop, vec_capacity};

/// Writes bytes over those that stand at `start`, as a length whose place was kept free.
pub fn fill(out: &mut Vec<u8>, start: usize, bytes: &[u8])
    requires within { start + length bytes.now ≤ length out.old.items }
    ensures items { out.new.items ≡ take start out.old.items ++ bytes.now
        ++ drop (start + length bytes.now) out.old.items }
    ensures capacity { vec_capacity out.new ≡ vec_capacity out.old }
{
    out[start..start + bytes.len()].copy_from_slice(bytes);
}
