// The recurrence of source 004 over the levels of days: Algorithm 3 in pair form. One running column of tails is held through the whole run, in which
// each channel's distances are added up, and the two lent byte tables are filled column by column.

#![tactic(auto)]

ghost use Rattle.std.specs.Prelude.{◌≡◌, ℕ, ◌+◌, ◌*◌, ◌^◌, ◌≤◌, ◌<◌, length, get_or};
ghost use Rattle.cutting.specs.Limits.{most_observations, most_segments, cost_bytes};
ghost use Rattle.cutting.specs.Recurrence.{Found};
ghost use Rattle.recurrence.specs.Column.{sum_at, cell_cost, cell_start, cost_column, start_column, Sums};
ghost use Rattle.recurrence.specs.Tables.{Lent, cost_table, start_table};
ghost use Rattle.sample.specs.Level.{largest_level};
ghost use Rattle.kernel.specs.Kernel.{dist, far};
ghost use Rattle.recurrence.specs.Weight.{days_in, days_cost, most_tail, Tails, tail_cost, Prices, Observed};

use cutting::{COST_BYTES, LEAST_LENGTH, MOST_OBSERVATIONS, START_BYTES};
use kernel::Kernel;

// "Where t is less than D, no cutting exists: the entries are 18,446,744,073,709,551,615 and 65,535."
const NO_COST: u64 = 0xffff_ffff_ffff_ffff;

const NO_START: usize = 0xffff;

// What a row's entries are to hold: the least cost and its start, or both marks, which are the tables' own numbers.
#[derive(Clone, Copy, Debug, PartialEq, Eq)]
pub struct Best {
    pub cost: u64,
    pub start: usize,
}

// The size of the two tables: dmax rows, each of n + 1 columns.
#[derive(Clone, Copy, Debug, PartialEq, Eq)]
pub struct Size {
    pub n: usize,
    pub dmax: usize,
}

// The least of a row's entries plus the last segment's costs, at s from lo to hi - 1, and the earliest s that has it. The loop keeps how far past lo
// that is, its own counter: so it has one instruction less.
fn least(costs: &[u8], row: usize, c: &[u64; MOST_OBSERVATIONS], lo: usize, hi: usize) -> Best
    requires within { (lo < hi) × (hi ≤ most_observations) × (cost_bytes * (row + hi) ≤ length costs.now) }
    requires sums { (s : ℕ) → lo ≤ s → s < hi → sum_at costs.now row c.now s < 2 ^ 64 }
    ensures { Found (sum_at costs.now row c.now) lo hi result.cost result.start }
{
    let mut cost = table::load(costs, COST_BYTES * (row + lo), COST_BYTES) + c[lo];
    let mut past = 0;
    for i in 1..hi - lo {
        let s = lo + i;
        let x = table::load(costs, COST_BYTES * (row + s), COST_BYTES) + c[s];
        if x < cost {
            cost = x;
            past = i;
        }
    }
    Best {
        cost,
        start: lo + past,
    }
}

// What row d of column t is to hold: the marks where no cutting is.
// The costs stay out of a struct with the rest, since `column` writes them between two calls.
#[tactic(auto, using(table::proofs::Fill::cell_below, cutting::proofs::Table::from_none, cutting::proofs::Table::from_one), unfolding(cutting::specs::Table::cost_from, cutting::specs::Table::start_from))]
fn best_at(costs: &[u8], c: &[u64; MOST_OBSERVATIONS], size: Size, d: usize, t: usize) -> Best
    requires within { (size.n ≤ most_observations) × (size.dmax ≤ most_segments) × (t ≤ size.n) × (d < size.dmax) }
    requires room { cost_bytes * (size.dmax * (size.n + 1)) ≤ length costs.now }
    requires sums { Sums size costs.now c.now t }
    ensures cost_value { result.cost ≡ cell_cost size costs.now c.now t d }
    ensures start_value { result.start ≡ cell_start size costs.now c.now t d }
{
    if t < (d + 1) * LEAST_LENGTH {
        return Best {
            cost: NO_COST,
            start: NO_START,
        };
    }
    if d == 0 {
        return Best {
            cost: c[0],
            start: 0,
        };
    }
    least(
        costs,
        (d - 1) * (size.n + 1),
        c,
        d * LEAST_LENGTH,
        t + 1 - LEAST_LENGTH,
    )
}

// Fills column t of both tables, rows 0 to dmax - 1.
#[tactic(auto, using(crate::proofs::Entries::row_by_row))]
fn column(costs: &mut [u8], starts: &mut [u8], c: &[u64; MOST_OBSERVATIONS], size: Size, t: usize)
    requires lent { Lent size.n size.dmax costs.old starts.old × (t ≤ size.n) }
    requires sums { Sums size costs.old c.now t }
    ensures costs_after { costs.new ≡ cost_column size costs.old c.now t }
    ensures starts_after { starts.new ≡ start_column size costs.old c.now t starts.old }
{
    let columns = size.n + 1;
    for d in 0..size.dmax {
        let e = d * columns + t;
        let b = best_at(costs, c, size, d, t);
        table::store(costs, COST_BYTES * e, COST_BYTES, b.cost);
        table::store(starts, START_BYTES * e, START_BYTES, b.start as u64);
    }
}

// The levels of n days: each channel's kernel, and its n levels, one channel behind the other.
#[derive(Clone, Copy, Debug)]
pub struct Days<'a> {
    pub kernels: &'a [Kernel],
    pub levels: &'a [u32],
    pub n: usize,
    pub ghost observed: { Observed kernels.now levels.now n },
}

// Observation t joins the tails of those before it, by the levels of one channel. One pass a channel: with one channel that is the whole of it.
#[tactic(auto, using(crate::proofs::Weight::joined_room))]
fn join(k: Kernel, u: &[u32], a: &mut [u64], t: usize)
    requires within { (t < length u.now) × (t < length a.old) }
    requires levels { (j : ℕ) → j < length u.now → get_or u.now j 0 ≤ largest_level }
    requires room { (s : ℕ) → s < t → get_or a.old s 0 ≤ most_tail }
    ensures long { length a.new ≡ length a.old }
    ensures joined { (s : ℕ) → s < t → get_or a.new s 0 ≡ get_or a.old s 0 + dist k (far (get_or u.now s 0) (get_or u.now t 0)) }
{
    let y = u64::from(u[t]);
    for s in 0..t {
        a[s] += kernel::distance(k, u64::from(u[s]), y);
    }
}

// Observation t joins the tails of those before it, channel by channel, and starts its own.
fn grow(days: &Days, a: &mut [u64], t: usize)
    requires within { (t < days.now.n) × (t < length a.old) }
    requires tails { Tails days.now.kernels.now (days_in days.now.n (length days.now.kernels.now) days.now.levels.now) t a.old }
    ensures long { length a.new ≡ length a.old }
    ensures tails { Tails days.now.kernels.now (days_in days.now.n (length days.now.kernels.now) days.now.levels.now) (t + 1) a.new }
{
    let n = days.n;
    for c in 0..days.kernels.len() {
        join(days.kernels[c], &days.levels[n * c..n * c + n], a, t);
    }
    a[t] = 0;
}

// The cost in units of each last segment of the first t, by its start, from the tails.
#[tactic(auto, using(crate::proofs::Weight::total_back, crate::proofs::Weight::total_room, crate::proofs::Weight::units_room))]
fn price(a: &[u64], c: &mut [u64], t: usize)
    requires within { (t ≤ length a.now) × (t ≤ length c.old) × (t ≤ most_observations) }
    requires tails { (s : ℕ) → s < t → get_or a.now s 0 ≤ most_tail }
    requires costs { (s : ℕ) → s < t → tail_cost a.now s t < 2 ^ 63 }
    ensures { Prices (tail_cost a.now) t c.new }
{
    let mut r: u64 = 0;
    for s in (0..t).rev() {
        r += a[s];
        c[s] = kernel::units(r, (t - s) as u64);
    }
}

// Fills both tables for every count of segments to dmax: two slices, as C lends them.
#[tactic(auto, using(table::proofs::Fill::fill_none))]
pub fn fill_tables(days: &Days, dmax: usize, costs: &mut [u8], starts: &mut [u8])
    requires lent { Lent days.now.n dmax costs.old starts.old }
    ensures costs_after { costs.new ≡ cost_table (days_cost days.now.kernels.now days.now.levels.now days.now.n) days.now.n dmax costs.old }
    ensures starts_after { starts.new ≡ start_table (days_cost days.now.kernels.now days.now.levels.now days.now.n) days.now.n dmax starts.old }
{
    let n = days.n;
    let size = Size { n, dmax };
    let mut a = [0u64; MOST_OBSERVATIONS];
    let mut c = [0u64; MOST_OBSERVATIONS];
    for t in 0..n {
        column(costs, starts, &c, size, t);
        grow(days, &mut a, t);
        price(&a, &mut c, t + 1);
    }
    column(costs, starts, &c, size, n);
}
