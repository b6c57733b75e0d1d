// The channels that are asked of a record: how many, and each one's kernel and sample kind.
ghost use Rattle.std.specs.Prelude.{◌≡◌, ◌*◌, ◌≤◌, ◌<◌, length, OnOk};
ghost use Rattle.lists.specs.Lists.{values_of};
ghost use Rattle.reply.specs.Reply.{refusal};
ghost use Rattle.reply.specs.Refusal.{code_in, reply_of};
ghost use Rattle.reply.specs.Tries.{first_of};
ghost use Rattle.kernel.specs.Limits.{most_channels};
ghost use Rattle.record.specs.Limits.{byte_limit};
ghost use Rattle.record.specs.Channels.{pairs_from, kernel_in, kind_in, kernel_of, observation_bytes, channels_in};
ghost use Rattle.record.specs.Accepted.{Channeled};
ghost use Rattle.record.specs.Tries.{kinds_tries, channel_tries, kernels_tries};

use crate::{DAY_BYTES, MOST_KIND, SAMPLE_BYTES};
use kernel::{Kernel, MOST_CHANNELS};
use reply::{Reason, Refusal};

// The bytes of a kernel and a sample kind, and of four such pairs.
pub const PAIR_BYTES: usize = 2;

pub const PAIRS_BYTES: usize = 8;

const BYTE_LIMIT: u64 = 256;

// How many channels there are, and four pairs of a kernel's number and a sample kind as C and a file have them: one number of 8 bytes, the first channel's
// pair lowest, unused ones 0. Any numbers may stand there: they are judged when an entry is read or a record is solved.
#[derive(Clone, Copy, Debug, PartialEq, Eq)]
pub struct Channels {
    pub count: usize,
    pub pairs: u64,
}

impl Channels {
    // The channels that C lends as 2 bytes each; an odd length has none.
    pub fn lent(bytes: &[u8]) -> Channels
        ensures { result ≡ channels_in bytes.now }
    {
        let whole = bytes.len() % PAIR_BYTES == 0;
        Channels {
            count: if whole { bytes.len() / PAIR_BYTES } else { 0 },
            pairs: table::load(bytes, 0, bytes.len().min(PAIRS_BYTES)),
        }
    }

    // The pairs from a channel on.
    #[tactic(auto, using(crate::proofs::Pairs::pairs_first, crate::proofs::Pairs::pairs_next))]
    fn pairs_from(self, channel: usize) -> u64
        ensures { result ≡ pairs_from self channel }
    {
        let mut pairs = self.pairs;
        for _c in 0..channel {
            pairs /= BYTE_LIMIT * BYTE_LIMIT;
        }
        pairs
    }

    // The number of a channel's kernel.
    pub fn kernel(self, channel: usize) -> u64
        ensures { (result ≡ kernel_in self channel) × (result < byte_limit) }
    {
        self.pairs_from(channel) % BYTE_LIMIT
    }

    // A channel's sample kind.
    pub fn kind(self, channel: usize) -> u64
        ensures { (result ≡ kind_in self channel) × (result < byte_limit) }
    {
        self.pairs_from(channel) / BYTE_LIMIT % BYTE_LIMIT
    }

    // How many bytes an observation has: the day, and a sample for each channel.
    pub fn observation_bytes(self) -> usize
        requires { self.count < byte_limit }
        ensures { result ≡ observation_bytes self }
    {
        DAY_BYTES + SAMPLE_BYTES * self.count
    }

    // 24: the sample kinds, and the pairs that are not used.
    #[tactic(auto, using(reply::proofs::Answers::answers))]
    fn judge_kinds(self, place: u64) -> Result<(), Refusal>
        ensures { reply_of result ≡ first_of (kinds_tries self place) }
    {
        for c in 0..self.count {
            if MOST_KIND < self.kind(c) {
                return Err(Reason::UnknownKind.at(place));
            }
        }
        if self.pairs_from(self.count) != 0 {
            return Err(Reason::UnknownKind.at(place));
        }
        Ok(())
    }

    // 29, then 24: of a record place 0, of a file's entry its index.
    #[tactic(auto, using(reply::proofs::Answers::answers))]
    pub fn judge(self, place: u64) -> Result<(), Refusal>
        ensures reply { reply_of result ≡ first_of (channel_tries self place) }
        ensures channels { OnOk result (Channeled self) }
    {
        if self.count == 0 || MOST_CHANNELS < self.count {
            return Err(Reason::ChannelCount.at(place));
        }
        self.judge_kinds(place)?;
        Ok(())
    }

    // 6, channel by channel.
    pub fn judge_kernels(self) -> Result<(), Reason>
        ensures { refusal (code_in result) 0 ≡ first_of (kernels_tries self) }
    {
        for c in 0..self.count {
            crate::judge_kernel(self.kernel(c))?;
        }
        Ok(())
    }

    // The kernels of the first channels, as many as `out` has places. A number that names none leaves linear.
    pub fn read_kernels(self, out: &mut [Kernel])
        ensures { out.new ≡ values_of (λ c. kernel_of (kernel_in self c)) (length out.old) }
    {
        for (c, place) in out.iter_mut().enumerate() {
            *place = Kernel::try_from(self.kernel(c)).unwrap_or(Kernel::Linear);
        }
    }
}
