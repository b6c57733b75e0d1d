// The bytes of an entry: which fields it has, where they stand and how wide they are.
ghost use Rattle.std.specs.Prelude.{◌≡◌, ◌+◌, ◌≤◌, ◌<◌, ◌^◌, length};
ghost use Rattle.table.specs.Num.{num};
ghost use Rattle.buffer.specs.Laid.{laid};
ghost use Rattle.file.specs.Layout.{widths_of, as_lent, channels_held, width_of, to_offset, fields_at, field, entry_at, offset_at, encode, Fits, size_of, size_limit};
ghost use Rattle.file.specs.Steps.{Narrow};

use crate::limits;
use record::{Asked, Channels};

// A layout: the widths of the fields that not every layout has, or has as wide, 0 where there is no such field. That they are `Narrow` is asked in clauses:
// `entry_back` and `entry_kept` hold of every layout.
#[derive(Clone, Copy, Debug, PartialEq, Eq)]
pub(crate) struct Widths {
    pub channels: usize,
    pub pairs: usize,
    pub offset: usize,
}

// Where the fields behind an entry's term number stand.
#[derive(Clone, Copy, Debug, PartialEq, Eq)]
pub(crate) struct Fields {
    pub channels: usize,
    pub pairs: usize,
    pub dmax: usize,
    pub n: usize,
    pub offset: usize,
}

// An entry of the contents, its offset aside: the term number, what is asked of the record, and how many observations it has. That its fields are so small
// (`Fits`) is asked in clauses: `entry_at` makes an entry of every list, bytes or not.
#[derive(Clone, Copy, Debug, PartialEq, Eq)]
pub struct Entry {
    pub term: u64,
    pub asked: Asked,
    pub n: usize,
}

impl Widths {
    // The widths of the entries of a file of this form.
    pub(crate) fn of_form(form: u64) -> Widths
        ensures { (result ≡ widths_of form) × Narrow result }
    {
        match form {
            0 => Widths {
                channels: 0,
                pairs: record::PAIR_BYTES,
                offset: limits::OFFSET_BYTES,
            },
            _ => Widths {
                channels: limits::CHANNELS_BYTES,
                pairs: record::PAIRS_BYTES,
                offset: limits::OFFSET_BYTES,
            },
        }
    }

    // The widths of lent entries, whatever the form.
    pub(crate) fn as_lent() -> Widths
        ensures { (result ≡ as_lent) × Narrow result }
    {
        Widths {
            channels: limits::CHANNELS_BYTES,
            pairs: record::PAIRS_BYTES,
            offset: 0,
        }
    }

    // How many bytes an entry has.
    pub(crate) fn width(self) -> usize
        requires { Narrow self }
        ensures { result ≡ width_of self }
    {
        limits::TERM_BYTES
            + self.channels
            + self.pairs
            + limits::DMAX_BYTES
            + limits::N_BYTES
            + self.offset
    }

    // Where the fields of the entry at p stand.
    pub(crate) fn fields_at(self, p: usize) -> Fields
        requires { to_offset self p < 2 ^ 64 }
        ensures { result ≡ fields_at self p }
    {
        let channels = p + limits::TERM_BYTES;
        let pairs = channels + self.channels;
        let dmax = pairs + self.pairs;
        let n = dmax + limits::DMAX_BYTES;
        let offset = n + limits::N_BYTES;
        Fields {
            channels,
            pairs,
            dmax,
            n,
            offset,
        }
    }
}

impl Entry {
    // How many bytes the entry's body has.
    #[tactic(auto, using(crate::proofs::Codec::size_is))]
    pub(crate) fn size_of(self) -> usize
        requires { Fits as_lent self }
        ensures { (result ≡ size_of self) × (result < size_limit) }
    {
        self.asked.channels.observation_bytes() * self.n
    }
}

// How many channels the entries of a form can say.
pub(crate) fn channels_held(form: u64) -> usize
    ensures { result ≡ channels_held form }
{
    match form {
        0 => limits::ONE_CHANNEL,
        _ => limits::MOST_SAID,
    }
}

// The number of the k bytes from `at`.
#[tactic(auto, using(table::proofs::Num::num_lt))]
pub(crate) fn number(s: &[u8], at: usize, k: usize) -> u64
    requires { (at + k ≤ length s.now) × (k ≤ 8) }
    ensures { (result ≡ num k s.now at) × (result < 256 ^ k) }
{
    table::load(s, at, k)
}

// A field of k bytes; one that is not there is d.
#[tactic(auto, using(crate::proofs::Codec::field_none, crate::proofs::Codec::field_some))]
fn field(s: &[u8], at: usize, k: usize, d: u64) -> u64
    requires { (at + k ≤ length s.now) × (k ≤ 8) }
    ensures { result ≡ field k d s.now at }
{
    if k == 0 {
        return d;
    }
    number(s, at, k)
}

// The entry at p.
pub(crate) fn entry_at(s: &[u8], p: usize, w: Widths) -> Entry
    requires { (to_offset w p ≤ length s.now) × Narrow w }
    ensures { (result ≡ entry_at w s.now p) × Fits as_lent result }
{
    let at = w.fields_at(p);
    let term = number(s, p, limits::TERM_BYTES);
    let count = field(s, at.channels, w.channels, 1) as usize;
    let pairs = number(s, at.pairs, w.pairs);
    let dmax = number(s, at.dmax, limits::DMAX_BYTES) as usize;
    let n = number(s, at.n, limits::N_BYTES) as usize;
    let channels = Channels { count, pairs };
    let asked = Asked { channels, dmax };
    Entry { term, asked, n }
}

// The offset of the entry at p; one that is not there is where the body is due.
pub(crate) fn offset_at(s: &[u8], p: usize, w: Widths, due: usize) -> usize
    requires { (p + width_of w ≤ length s.now) × Narrow w }
    ensures { result ≡ offset_at w s.now p due }
{
    field(s, w.fields_at(p).offset, w.offset, due as u64) as usize
}

// Writes the entry e, whose body begins at `at`, from p on.
#[tactic(auto, using(crate::proofs::Codec::entry_put))]
pub(crate) fn put_entry(out: &mut [u8], p: usize, w: Widths, e: Entry, at: usize)
    requires { p + width_of w ≤ length out.old }
    ensures { out.new ≡ laid out.old p (encode w e at) }
{
    let to = w.fields_at(p);
    let Asked { channels, dmax } = e.asked;
    table::store(out, p, limits::TERM_BYTES, e.term);
    table::store(out, to.channels, w.channels, channels.count as u64);
    table::store(out, to.pairs, w.pairs, channels.pairs);
    table::store(out, to.dmax, limits::DMAX_BYTES, dmax as u64);
    table::store(out, to.n, limits::N_BYTES, e.n as u64);
    table::store(out, to.offset, w.offset, at as u64);
}
