// A text handed over to a lent buffer.
ghost use Rattle.std.specs.Prelude.{◌≡◌, ◌≤◌, length, take};
ghost use Rattle.report.specs.Written.{written_of, out_left};

use text::Text;

// A lent buffer is too short for what is to be written into it.
#[derive(Clone, Copy, Debug, PartialEq, Eq)]
pub struct TooShort;

// Lays a text over the front of a lent buffer that has room for it, and answers how many bytes it has.
#[tactic(auto, unfolding(crate::specs::Written::written_of, crate::specs::Written::out_left))]
pub fn hand_over(text: &Text, out: &mut [u8]) -> Result<usize, TooShort>
    requires { text.now.end ≤ length text.now.room.now }
    ensures value { result ≡ written_of (take text.now.end text.now.room.now) (length out.old) }
    ensures out_after { out.new ≡ out_left (take text.now.end text.now.room.now) out.old }
{
    if out.len() < text.end {
        return Err(TooShort);
    }
    buffer::lay(out, 0, &text.room[..text.end]);
    Ok(text.end)
}
