// The lines of one term, and that of a refused file.
ghost use Rattle.std.specs.Prelude.{◌≡◌, ◌+◌, ◌<◌, length};
ghost use Rattle.text.specs.Text.{Grown};
ghost use Rattle.file.specs.Contents.{count_in};
ghost use Rattle.file.specs.Items.{item_at};
ghost use Rattle.report.specs.Limits.{farthest, lines_length, cost_room, start_room};
ghost use Rattle.report.specs.Lines.{file_text, lines_of, item_text};
ghost use Rattle.report.specs.Tables.{Read, line_at};
ghost use Rattle.report.specs.Written.{written_of, out_left};

use crate::line::Line;
use crate::written::TooShort;
use crate::{line, written};
use file::RecordFile;
use record::Record;
use reply::Reply;
use text::Text;
use walk::Sought;

// The largest tables that a record can need: 12 rows of 401 entries, of 8 and 2 bytes.
const COST_ROOM: usize = cutting::COST_BYTES
    * cutting::MOST_SEGMENTS
    * (cutting::MOST_OBSERVATIONS + 1);

const START_ROOM: usize = cutting::START_BYTES
    * cutting::MOST_SEGMENTS
    * (cutting::MOST_OBSERVATIONS + 1);

// Room for all lines of a term, and for the line of a refused file.
pub const TEXT_ROOM: usize = 6200;

pub const LINE_ROOM: usize = 96;

// The line for k + 1 segments, off tables that a solve has filled.
fn line_at(record: &Record, costs: &[u8], starts: &[u8], k: usize) -> Line
    requires { Read record.now.asked record.now.body.now (length costs.now) k }
    ensures { result ≡ line_at record.now.asked record.now.body.now costs.now starts.now k }
{
    let n = record.observations();
    let cost = table::load(
        costs,
        cutting::COST_BYTES * (k * (n + 1) + n),
        cutting::COST_BYTES,
    );
    let d = k + 1;
    let sought = Sought {
        n,
        d,
        kernel: record.asked.channels.kernel(0),
    };
    let a = walk::read_cuts(sought, starts);
    let starts = a.starts;
    Line { d, cost, starts }
}

// All lines of a term, with tables lent for its solve.
#[tactic(auto, using(crate::proofs::Solved::refused_lines, text::proofs::Pieces::retell))]
fn put_lines(text: &mut Text, term: u64, record: &Record, costs: &mut [u8], starts: &mut [u8])
    requires { (text.old.end + lines_length < farthest) × (length costs.old ≡ cost_room) × (length starts.old ≡ start_room) }
    ensures { Grown text.old (lines_of term record.now.asked record.now.body.now) text.new }
{
    let solved = engine::solve(record, costs, starts);
    line::put_head(text, term, Reply::from(solved));
    if solved.is_err() {
        return;
    }
    for k in 0..record.asked.dmax {
        let l = line_at(record, costs, starts, k);
        line::put_line(text, record, l);
    }
}

// Writes the lines of a term: its number, and its record.
pub fn lines(term: u64, record: &Record, out: &mut [u8]) -> Result<usize, TooShort>
    ensures value { result ≡ written_of (lines_of term record.now.asked record.now.body.now) (length out.old) }
    ensures out_after { out.new ≡ out_left (lines_of term record.now.asked record.now.body.now) out.old }
{
    let mut costs = [0u8; COST_ROOM];
    let mut starts = [0u8; START_ROOM];
    let mut room = [0u8; TEXT_ROOM];
    let mut text = Text {
        room: &mut room,
        end: 0,
    };
    put_lines(&mut text, term, record, &mut costs, &mut starts);
    written::hand_over(&text, out)
}

// Writes the lines of record i of an accepted file.
pub fn term_lines(file: &RecordFile, i: usize, out: &mut [u8]) -> Result<usize, TooShort>
    requires { i < count_in file.now.bytes.now }
    ensures value { result ≡ written_of (item_text (item_at file.now.bytes.now i)) (length out.old) }
    ensures out_after { out.new ≡ out_left (item_text (item_at file.now.bytes.now i)) out.old }
{
    let found = file.record(i);
    let record = Record {
        asked: found.entry.asked,
        body: &file.bytes[found.from..found.end],
    };
    lines(found.entry.term, &record, out)
}

// Writes the one line of a refused file.
pub fn file_line(r: Reply, out: &mut [u8]) -> Result<usize, TooShort>
    ensures value { result ≡ written_of (file_text r) (length out.old) }
    ensures out_after { out.new ≡ out_left (file_text r) out.old }
{
    let mut room = [0u8; LINE_ROOM];
    let mut text = Text {
        room: &mut room,
        end: 0,
    };
    line::put_refused(&mut text, r);
    written::hand_over(&text, out)
}
