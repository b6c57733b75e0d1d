// The writer: the reply to what is lent, and the file of it.
ghost use Rattle.std.specs.Prelude.{◌≡◌, ◌+◌, ◌≤◌, length, IfOk};
ghost use Rattle.buffer.specs.Laid.{laid};
ghost use Rattle.reply.specs.Reply.{refusal};
ghost use Rattle.reply.specs.Refusal.{code_in, reply_of};
ghost use Rattle.reply.specs.Tries.{first_of};
ghost use Rattle.file.specs.Limits.{most_bytes, most_records, head_bytes};
ghost use Rattle.file.specs.Layout.{widths_of};
ghost use Rattle.file.specs.Contents.{lent, entries_in};
ghost use Rattle.file.specs.Items.{contents, file_of, lent_items};
ghost use Rattle.file.specs.Tries.{whole_tries, room_tries, write_reply, file_left};
ghost use Rattle.file.specs.Steps.{Roomy};

use crate::contents::{Contents, Entries};
use crate::layout::Widths;
use crate::{contents, layout, limits};
use reply::{Reason, Refusal};

// Lent entries, whose bodies are a run of `run` bytes.
fn lent_in(entries: &[u8], run: usize) -> Entries<'_>
    ensures { (result.contents ≡ lent entries.now run) × (result.bytes.now ≡ entries.now) }
{
    let widths = Widths::as_lent();
    let contents = Contents {
        widths,
        count: entries.len() / limits::LENT_BYTES,
        from: 0,
        start: 0,
        limit: run,
    };
    Entries {
        bytes: entries,
        contents,
    }
}

// 20 and 21: whether lent entries are whole, how many they are, and whether a file of the form can hold them; and the entries.
#[tactic(auto, using(reply::proofs::Answers::answers))]
fn judge_whole(form: u64, entries: &[u8], run: usize) -> Result<Entries<'_>, Reason>
    ensures reply { refusal (code_in result) 0 ≡ first_of (whole_tries form entries.now) }
    ensures entries { IfOk result (λ l. (l.contents ≡ lent entries.now run) × (l.bytes.now ≡ entries.now) × (l.contents.count ≤ most_records)) }
{
    if entries.len() % limits::LENT_BYTES != 0 {
        return Err(Reason::FileTooShort);
    }
    let lent = lent_in(entries, run);
    contents::judge_shape(lent.contents.count, form)?;
    lent.judge_held(form)?;
    Ok(lent)
}

// 26 and 27: a file of `start` bytes before its bodies, with a run of them, in so much room.
#[tactic(auto, using(reply::proofs::Answers::answers))]
fn judge_room(start: usize, run: usize, room: usize) -> Result<(), Reason>
    requires { start ≤ most_bytes }
    ensures { refusal (code_in result) 0 ≡ first_of (room_tries (start + run) room) }
{
    if limits::MOST_BYTES - start < run {
        return Err(Reason::FileTooLong);
    }
    if room < start + run {
        return Err(Reason::OutputTooShort);
    }
    Ok(())
}

// What is lent, before anything is written.
#[tactic(auto, using(reply::proofs::Answers::answers), unfolding(crate::specs::Tries::write_tries))]
fn judge_write(form: u64, entries: &[u8], bodies: &[u8], room: usize) -> Result<(), Refusal>
    ensures { reply_of result ≡ write_reply form entries.now bodies.now room }
{
    let lent = judge_whole(form, entries, bodies.len())?;
    lent.judge()?;
    let start = contents::bodies_at(form, lent.contents.count);
    judge_room(start, bodies.len(), room)?;
    Ok(())
}

// Writes the contents of a file of lent entries, the first body of which begins at `start`.
#[tactic(auto, using(crate::proofs::Writing::putting))]
fn put_contents(out: &mut [u8], form: u64, lent: &Entries, start: usize)
    requires { Roomy form lent.now.contents lent.now.bytes.now start out.old }
    ensures { out.new ≡ laid out.old head_bytes (contents (widths_of form) start (entries_in lent.now.contents lent.now.bytes.now)) }
{
    let w = Widths::of_form(form);
    let mut at = start;
    for i in 0..lent.contents.count {
        let e = lent.entry(i);
        // Entry i of a file begins where the contents of i records end.
        layout::put_entry(out, contents::bodies_at(form, i), w, e, at);
        at += e.size_of();
    }
}

// Writes the file of what is lent.
#[tactic(auto, using(crate::proofs::Writing::lent_put))]
fn put_file(form: u64, entries: &[u8], bodies: &[u8], out: &mut [u8])
    requires { (write_reply form entries.now bodies.now (length out.old)).code ≡ 0 }
    ensures { out.new ≡ laid out.old 0 (file_of form (lent_items entries.now bodies.now)) }
{
    let lent = lent_in(entries, bodies.len());
    let n = lent.contents.count;
    let start = contents::bodies_at(form, n);
    table::store(out, 0, limits::COUNT_BYTES, n as u64);
    table::store(out, limits::COUNT_BYTES, limits::FORM_BYTES, form);
    put_contents(out, form, &lent, start);
    buffer::lay(out, start, bodies);
}

// Writes the file of what is lent to `out`, in the form that is told, or refuses and writes nothing.
#[tactic(auto, using(reply::proofs::Answers::left))]
pub fn write_file(form: u64, entries: &[u8], bodies: &[u8], out: &mut [u8]) -> Result<(), Refusal>
    ensures reply { reply_of result ≡ write_reply form entries.now bodies.now (length out.old) }
    ensures output { out.new ≡ file_left form entries.now bodies.now out.old }
{
    judge_write(form, entries, bodies, out.len())?;
    put_file(form, entries, bodies, out);
    Ok(())
}
