// The reader: the reply to a file, and the records of one that is accepted.
ghost use Rattle.std.specs.Prelude.{◌≡◌, ◌≤◌, ◌<◌, length, IfOk};
ghost use Rattle.reply.specs.Reply.{refusal};
ghost use Rattle.reply.specs.Refusal.{code_in, reply_of};
ghost use Rattle.reply.specs.Tries.{first_of};
ghost use Rattle.file.specs.Limits.{most_records, head_bytes};
ghost use Rattle.file.specs.Contents.{count_in, form_in, filed};
ghost use Rattle.file.specs.Tries.{head_tries, read_reply};
ghost use Rattle.file.specs.Steps.{Stands};

use crate::contents::{Contents, Entries};
use crate::layout::{Entry, Widths};
use crate::{contents, layout, limits};
use reply::{Reason, Refusal};

// A file that the reader accepts.
#[derive(Clone, Copy, Debug)]
pub struct RecordFile<'a> {
    pub bytes: &'a [u8],
    pub ghost accepted: { (read_reply bytes.now).code ≡ 0 },
}

// A record of a file: its entry, and where in the file its body begins and ends.
#[derive(Clone, Copy, Debug, PartialEq, Eq)]
pub struct Found {
    pub entry: Entry,
    pub from: usize,
    pub end: usize,
}

// The form of a file.
fn form_of(file: &[u8]) -> u64
    requires { head_bytes ≤ length file.now }
    ensures { result ≡ form_in file.now }
{
    layout::number(file, limits::COUNT_BYTES, limits::FORM_BYTES)
}

// Where the entries of a file stand.
fn contents_of(file: &[u8]) -> Contents
    requires { head_bytes ≤ length file.now }
    ensures { result ≡ filed file.now }
{
    let count = layout::number(file, 0, limits::COUNT_BYTES) as usize;
    let form = form_of(file);
    let widths = Widths::of_form(form);
    let start = contents::bodies_at(form, count);
    Contents {
        widths,
        count,
        from: limits::HEAD_BYTES,
        start,
        limit: file.len(),
    }
}

// 26, 20 and 21: the head of a file, and its entries.
#[tactic(auto, using(reply::proofs::Answers::answers))]
fn judge_head(file: &[u8]) -> Result<Entries<'_>, Reason>
    ensures reply { refusal (code_in result) 0 ≡ first_of (head_tries file.now) }
    ensures entries { IfOk result (λ l. (l.contents ≡ filed file.now) × (l.bytes.now ≡ file.now)) }
{
    if limits::MOST_BYTES < file.len() {
        return Err(Reason::FileTooLong);
    }
    if file.len() < limits::HEAD_BYTES {
        return Err(Reason::FileTooShort);
    }
    let contents = contents_of(file);
    contents::judge_shape(contents.count, form_of(file))?;
    if file.len() < contents.start {
        return Err(Reason::FileTooShort);
    }
    Ok(Entries {
        bytes: file,
        contents,
    })
}

// Reads a file: it is accepted, or refused.
#[tactic(auto, using(reply::proofs::Answers::answers), unfolding(crate::specs::Tries::read_tries))]
pub fn read_file(file: &[u8]) -> Result<RecordFile<'_>, Refusal>
    ensures reply { reply_of result ≡ read_reply file.now }
    ensures bytes { IfOk result (λ f. f.bytes.now ≡ file.now) }
{
    let entries = judge_head(file)?;
    entries.judge()?;
    Ok(RecordFile { bytes: file })
}

impl RecordFile<'_> {
    // How many records it has.
    #[tactic(auto, using(crate::proofs::Accepted::read_counted, crate::proofs::Accepted::read_few))]
    pub fn count(&self) -> usize
        ensures { (result ≡ count_in self.now.bytes.now) × (result ≤ most_records) }
    {
        contents_of(self.bytes).count
    }

    // Record i.
    #[tactic(auto, using(crate::proofs::Accepted::read_counted))]
    pub fn record(&self, i: usize) -> Found
        requires { i < count_in self.now.bytes.now }
        ensures { Stands result self.now.bytes.now i }
    {
        let entries = Entries {
            bytes: self.bytes,
            contents: contents_of(self.bytes),
        };
        let entry = entries.entry(i);
        // An entry of a file has its offset, so that none is due.
        let from = entries.offset(i, 0);
        let end = from + entry.size_of();
        Found { entry, from, end }
    }
}
