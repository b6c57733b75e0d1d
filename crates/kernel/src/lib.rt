// The kernels in code: which one a number names, the distance of two samples, and a segment's cost in units.

#![tactic(auto)]

ghost use Rattle.std.specs.Prelude.{◌≡◌, ◌^◌, ◌≤◌, ◌<◌, ok_or};
ghost use Rattle.reply.specs.declared.Reason.TheVariants.{UnknownKernel};
ghost use Rattle.cutting.specs.Limits.{most_observations};
ghost use Rattle.sample.specs.Level.{largest_level};
ghost use Rattle.kernel.specs.Kernel.{dist, far, named_of};
ghost use Rattle.kernel.specs.Cost.{units_of};

use reply::Reason;

// "A record then holds 1 to 4 channels", each with a kernel of its own.
pub const MOST_CHANNELS: usize = 4;

// So many units are one of R/m.
const UNITS: u64 = 4096;

// The three kernels.
#[derive(Clone, Copy, Debug, PartialEq, Eq)]
pub enum Kernel {
    Linear,
    Spelling,
    Energy,
}

// The kernel of a number; any other number than the three is 6.
impl TryFrom<u64> for Kernel {
    type Error = Reason;

    ghost try_from_gives = { λ n r. r ≡ ok_or (named_of n) UnknownKernel };

    #[tactic(auto, using(crate::proofs::Number::known, crate::proofs::Number::unknown), unfolding(crate::specs::Kernel::named_of))]
    fn try_from(number: u64) -> Result<Kernel, Reason> {
        match number {
            1 => Ok(Kernel::Linear),
            2 => Ok(Kernel::Spelling),
            3 => Ok(Kernel::Energy),
            _ => Err(Reason::UnknownKernel),
        }
    }
}

// The distance of two samples, each given by its level.
pub fn distance(k: Kernel, u: u64, v: u64) -> u64
    requires { (u ≤ largest_level) × (v ≤ largest_level) }
    ensures { result ≡ dist k (far u v) }
{
    match k {
        Kernel::Linear => {
            let g = u.abs_diff(v);
            g * g
        }
        Kernel::Spelling => { if u == v { 0 } else { 2 } }
        Kernel::Energy => u.abs_diff(v),
    }
}

// 4,096 times r divided by m, rounded down, with no product past 64 bits.
pub fn units(r: u64, m: u64) -> u64
    requires { (0 < m) × (m ≤ most_observations) × (units_of r m < 2 ^ 63) }
    ensures { result ≡ units_of r m }
{
    UNITS * (r / m) + UNITS * (r % m) / m
}
