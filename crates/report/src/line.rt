// The lines, piece by piece.
ghost use Rattle.std.specs.Prelude.{◌≡◌, ◌+◌, ◌*◌, ◌^◌, ◌≤◌, ◌<◌, length};
ghost use Rattle.cutting.specs.Limits.{most_segments};
ghost use Rattle.kernel.specs.Limits.{most_channels};
ghost use Rattle.text.specs.Text.{Grown};
ghost use Rattle.report.specs.Limits.{farthest, reply_length, head_length, file_line_length, cut_length, line_length};
ghost use Rattle.report.specs.Lines.{reply_text, head_text, file_text, pair_text, cuts_text, line_text};

use record::{Day, Index, Record};
use reply::Reply;
use text::Text;

// What a line says: a segment count, the cost in units, and the first index of each segment, unused places 0, as the answer to reading cuts has them.
#[derive(Clone, Copy, Debug)]
pub struct Line {
    pub d: usize,
    pub cost: u64,
    pub starts: [u64; cutting::MOST_SEGMENTS],
}

// The code and the place of a reply.
fn put_reply(text: &mut Text, r: Reply)
    requires { text.old.end < farthest }
    ensures put { Grown text.old (reply_text r) text.new }
    ensures upper_bound { text.new.end ≤ text.old.end + reply_length }
{
    text.word(b" code ");
    text.number(r.code);
    text.word(b" place ");
    text.number(r.place);
}

// The first line of a term.
pub fn put_head(text: &mut Text, term: u64, r: Reply)
    requires { text.old.end + head_length < farthest }
    ensures { Grown text.old (head_text term r) text.new }
{
    text.word(b"term ");
    text.number(term);
    put_reply(text, r);
    text.byte(b'\n');
}

// The line of a refused file: code, place and position.
pub fn put_refused(text: &mut Text, r: Reply)
    requires { text.old.end + file_line_length < farthest }
    ensures { Grown text.old (file_text r) text.new }
{
    text.word(b"file");
    put_reply(text, r);
    text.word(b" at ");
    text.number(r.position);
    text.byte(b'\n');
}

// One cut: a space, the segment's first index, a colon and its change date.
fn put_cut(text: &mut Text, index: Index, date: Day)
    requires { text.old.end + cut_length < 2 ^ 32 }
    ensures put { Grown text.old (pair_text index.0 date.0) text.new }
    ensures upper_bound { text.new.end ≤ text.old.end + cut_length }
{
    text.byte(b' ');
    text.number(index.0 as u64);
    text.byte(b':');
    text.number(date.0 as u64);
}

// The cuts of a line, by the first index of each segment but the first.
#[tactic(auto, using(text::proofs::Pieces::grown_nothing))]
fn put_cuts(text: &mut Text, record: &Record, starts: &[u64])
    requires room { text.old.end + cut_length * length starts.now < 2 ^ 32 }
    requires channels { record.now.asked.channels.count ≤ most_channels }
    ensures put { Grown text.old (cuts_text record.now.asked.channels record.now.body.now starts.now) text.new }
    ensures upper_bound { text.new.end ≤ text.old.end + cut_length * length starts.now }
{
    for start in starts {
        let s = Index(*start as usize);
        let date = segment::date_at(record, s);
        put_cut(text, s, date);
    }
}

// One line: the segment count, the cost in units, and the cuts.
pub fn put_line(text: &mut Text, record: &Record, line: Line)
    requires channels { record.now.asked.channels.count ≤ most_channels }
    requires line { (text.old.end + line_length < farthest) × (1 ≤ line.d) × (line.d ≤ most_segments) × (length line.starts ≡ most_segments) }
    ensures put { Grown text.old (line_text record.now.asked.channels record.now.body.now line) text.new }
    ensures upper_bound { text.new.end ≤ text.old.end + line_length }
{
    text.number(line.d as u64);
    text.byte(b' ');
    text.number(line.cost);
    put_cuts(text, record, &line.starts[1..line.d]);
    text.byte(b'\n');
}
