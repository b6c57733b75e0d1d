// The entries of a file, or those that are lent: where they stand, and how they are judged.
ghost use Rattle.std.specs.Prelude.{◌≡◌, ◌+◌, ◌≤◌, ◌<◌, IfOk};
ghost use Rattle.reply.specs.Reply.{refusal};
ghost use Rattle.reply.specs.Refusal.{code_in, reply_of};
ghost use Rattle.reply.specs.Tries.{first_of};
ghost use Rattle.file.specs.Limits.{most_count};
ghost use Rattle.file.specs.Layout.{as_lent, offset_at, Fits, size_of};
ghost use Rattle.file.specs.Contents.{bodies_at, place_in, entry_in, offset_field_in};
ghost use Rattle.file.specs.Tries.{shape_try, held_tries, entry_tries, entries_tries};
ghost use Rattle.file.specs.Steps.{Near, Listed, Judged};

use crate::layout::{Entry, Widths};
use crate::{layout, limits};
use reply::{Reason, Refusal};

// Where entries stand: `count` of them from byte `from` on. Their bodies begin at `start` and are to end by `limit`.
#[derive(Clone, Copy, Debug, PartialEq, Eq)]
pub(crate) struct Contents {
    pub widths: Widths,
    pub count: usize,
    pub from: usize,
    pub start: usize,
    pub limit: usize,
}

// Contents, and the bytes that they stand in.
#[derive(Clone, Copy, Debug)]
pub(crate) struct Entries<'a> {
    pub bytes: &'a [u8],
    pub contents: Contents,
    pub ghost listed: { Listed contents bytes.now },
}

// What is due of an entry: a term number of `floor` or more, and a body at `at`.
#[derive(Clone, Copy, Debug, PartialEq, Eq)]
pub(crate) struct Due {
    pub floor: u64,
    pub at: usize,
}

// Where the bodies of a file of `count` records begin.
pub(crate) fn bodies_at(form: u64, count: usize) -> usize
    requires { count ≤ most_count }
    ensures { result ≡ bodies_at form count }
{
    limits::HEAD_BYTES + Widths::of_form(form).width() * count
}

// 21: how many records there are, and in which form.
#[tactic(auto, using(reply::proofs::Answers::answers))]
pub(crate) fn judge_shape(count: usize, form: u64) -> Result<(), Reason>
    ensures { refusal (code_in result) 0 ≡ first_of (shape_try count form) }
{
    if count == 0 || limits::MOST_RECORDS < count || limits::MOST_FORM < form {
        return Err(Reason::RecordCount);
    }
    Ok(())
}

impl Contents {
    // Where entry i begins. That it is near is a clause: the index is no part of the contents.
    fn place_in(self, i: usize) -> usize
        requires { Near self i }
        ensures { result ≡ place_in self i }
    {
        self.from + self.widths.width() * i
    }

    // Where its offset field begins.
    fn offset_field_in(self, i: usize) -> usize
        requires { Near self i }
        ensures { result ≡ offset_field_in self i }
    {
        self.widths.fields_at(self.place_in(i)).offset
    }

    // 23, 29, 24, 22 and 28: entry i, by its fields, its offset, and what is due of it; and where its body ends.
    #[tactic(auto, using(reply::proofs::Answers::answers))]
    fn judge_entry(self, e: Entry, offset: usize, due: Due, i: usize) -> Result<usize, Refusal>
        requires { Near self i × Fits as_lent e × (due.at ≤ self.limit) }
        ensures reply { reply_of result ≡ first_of (entry_tries self e offset due i) }
        ensures ended { IfOk result (λ at. at ≡ due.at + size_of e) }
    {
        if e.term < due.floor {
            return Err(Reason::TermNotAbove.at(i as u64));
        }
        e.asked.channels.judge(i as u64)?;
        if offset != due.at {
            return Err(Reason::BodyMisplaced.at_byte(i as u64, self.offset_field_in(i) as u64));
        }
        if self.limit - due.at < e.size_of() {
            return Err(Reason::BodyPastEnd.at_byte(i as u64, self.limit as u64));
        }
        Ok(due.at + e.size_of())
    }
}

impl Entries<'_> {
    // Entry i.
    pub(crate) fn entry(&self, i: usize) -> Entry
        requires { i < self.now.contents.count }
        ensures { (result ≡ entry_in self.now.contents self.now.bytes.now i) × Fits as_lent result }
    {
        let c = self.contents;
        layout::entry_at(self.bytes, c.place_in(i), c.widths)
    }

    // The offset of entry i, whose body is due at `due`.
    pub(crate) fn offset(&self, i: usize, due: usize) -> usize
        requires { i < self.now.contents.count }
        ensures { result ≡ offset_at self.now.contents.widths self.now.bytes.now (place_in self.now.contents i) due }
    {
        let c = self.contents;
        layout::offset_at(self.bytes, c.place_in(i), c.widths, due)
    }

    // 21: whether the form can say how many channels each entry has.
    pub(crate) fn judge_held(&self, form: u64) -> Result<(), Reason>
        ensures { refusal (code_in result) 0 ≡ first_of (held_tries form self.now.contents self.now.bytes.now) }
    {
        let held = layout::channels_held(form);
        for i in 0..self.contents.count {
            if held < self.entry(i).asked.channels.count {
                return Err(Reason::RecordCount);
            }
        }
        Ok(())
    }

    // All entries: where their bodies end.
    #[tactic(auto, using(crate::proofs::Judging::walking))]
    fn judge_entries(&self) -> Result<usize, Refusal>
        ensures { Judged result self.now.contents self.now.bytes.now }
    {
        let c = self.contents;
        let mut due = Due {
            floor: 0,
            at: c.start,
        };
        for i in 0..c.count {
            let e = self.entry(i);
            let offset = self.offset(i, due.at);
            let at = c.judge_entry(e, offset, due, i)?;
            due = Due {
                floor: e.term + 1,
                at,
            };
        }
        Ok(due.at)
    }

    // All entries, then 25: bytes left over.
    #[tactic(auto, using(reply::proofs::Answers::answers))]
    pub(crate) fn judge(&self) -> Result<(), Refusal>
        ensures { reply_of result ≡ first_of (entries_tries self.now.contents self.now.bytes.now) }
    {
        let end = self.judge_entries()?;
        let left = self.contents.limit - end;
        if 0 < left {
            return Err(Reason::BytesLeftOver.into());
        }
        Ok(())
    }
}
