// A sample: a signed count, or a 64-bit floating share. Either is judged and becomes a whole number x
// from -1,000,000 to 1,000,000.

#![tactic(auto)]

ghost use Rattle.std.specs.Prelude.{◌≡◌, Err};
ghost use Rattle.std.specs.Float.{binary64};
ghost use Rattle.std.specs.Float.Ieee.{of_bits};
ghost use Rattle.sample.specs.Judge.{judged_of, judged_count, judged_share};
ghost use Rattle.sample.specs.Level.{InRange, level};
ghost use Rattle.reply.specs.Refusal.{number_of};
ghost use Rattle.sample.specs.Code.{code_of, level_of};
ghost use Rattle.sample.specs.Word.{sample_of};

use reply::Reason;

// The largest sample.
const LARGEST: i64 = 1000000;

// The smallest sample.
const SMALLEST: i64 = -1000000;

// The level of the sample 0.
pub const ZERO_LEVEL: usize = 1000000;

#[derive(Clone, Copy, Debug)]
pub enum Sample {
    Count(i64),
    Share(f64),
}

// Why a sample is no whole number in range.
#[derive(Clone, Copy, Debug, PartialEq, Eq)]
pub enum Fault {
    NotFinite,
    OutOfRange,
    NotWhole,
}

// The replies 9, 10 and 11.
impl From<Fault> for Reason {
    ghost from_gives = { λ f r. number_of r ≡ code_of (Err f) };

    fn from(fault: Fault) -> Reason {
        match fault {
            Fault::NotFinite => Reason::ShareNotFinite,
            Fault::OutOfRange => Reason::SampleOutOfRange,
            Fault::NotWhole => Reason::ShareNotWhole,
        }
    }
}

// A count stands for itself.
fn judge_count(n: i64) -> Result<i64, Fault>
    ensures { result ≡ judged_count n }
{
    if SMALLEST <= n && n <= LARGEST {
        return Ok(n);
    }
    Err(Fault::OutOfRange)
}

// x = 65,536 v. The product is exact wherever x is in range, and overflows only out of range.
fn judge_share(v: f64) -> Result<i64, Fault>
    ensures { result ≡ judged_share v }
{
    if !v.is_finite() {
        return Err(Fault::NotFinite);
    }
    let x = v * 65536.0;
    if x < -1000000.0 {
        return Err(Fault::OutOfRange);
    }
    if 1000000.0 < x {
        return Err(Fault::OutOfRange);
    }
    // The cast below is lossless at every whole number but -0.0.
    if x == 0.0 {
        return Ok(0);
    }
    if x.trunc() != x {
        return Err(Fault::NotWhole);
    }
    Ok(x as i64)
}

// The whole number that a sample stands for, or why there is none.
pub fn judge(s: Sample) -> Result<i64, Fault>
    ensures { result ≡ judged_of s }
{
    match s {
        Sample::Count(n) => judge_count(n),
        Sample::Share(v) => judge_share(v),
    }
}

// The share of these bits. `from_bits` is undefined at a NaN's, of which all say the same.
fn share_of(word: u64) -> f64
    ensures { result ≡ of_bits binary64 word }
{
    if 0x7ff0_0000_0000_0000 < word % 0x8000_0000_0000_0000 {
        return f64::NAN;
    }
    f64::from_bits(word)
}

// The sample that 8 bytes of a body hold, as a little-endian word. Kind 0 is a count, and any other number a share: `sample_of` is defined of every one.
pub fn sample_of(kind: u64, word: u64) -> Sample
    ensures { result ≡ sample_of kind word }
{
    if kind == 0 {
        return Sample::Count(word.cast_signed());
    }
    let v = share_of(word);
    Sample::Share(v)
}

// A whole number as the engine takes it: x + 1,000,000, the sum that `level` is.
fn raised(x: i64) -> u64
    requires { InRange x }
    ensures { result ≡ level x }
{
    (x + LARGEST) as u64
}

// The level of a sample, from 0 to 2,000,000, or why it has none.
pub fn level_of(s: Sample) -> Result<u64, Fault>
    ensures { result ≡ level_of (judged_of s) }
{
    let x = judge(s)?;
    Ok(raised(x))
}
