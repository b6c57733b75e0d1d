// Bytes laid over a lent buffer.

#![tactic(auto)]

ghost use Rattle.std.specs.Prelude.{◌≡◌, ◌+◌, ◌≤◌, length};
ghost use Rattle.buffer.specs.Laid.{laid};

// Lays all of s over `out` from index `at` on, which is an argument and no state; no other byte changes.
pub fn lay(out: &mut [u8], at: usize, s: &[u8])
    requires { at + length s.now ≤ length out.old }
    ensures { out.new ≡ laid out.old at s.now }
{
    out[at..at + s.len()].copy_from_slice(s);
}
