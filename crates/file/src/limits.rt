// The widths and limits of the record file, by name.
pub(crate) const MOST_BYTES: usize = 65536;

pub(crate) const MOST_RECORDS: usize = 64;

pub(crate) const MOST_FORM: u64 = 1;

pub(crate) const COUNT_BYTES: usize = 1;

pub(crate) const FORM_BYTES: usize = 1;

pub(crate) const HEAD_BYTES: usize = COUNT_BYTES + FORM_BYTES;

pub(crate) const TERM_BYTES: usize = 2;

pub(crate) const CHANNELS_BYTES: usize = 1;

pub(crate) const DMAX_BYTES: usize = 2;

pub(crate) const N_BYTES: usize = 2;

pub(crate) const OFFSET_BYTES: usize = 4;

pub(crate) const LENT_BYTES: usize = TERM_BYTES
    + CHANNELS_BYTES
    + record::PAIRS_BYTES
    + DMAX_BYTES
    + N_BYTES;

// The most channels that form 0 can say, and those that a field for them can.
pub(crate) const ONE_CHANNEL: usize = 1;

pub(crate) const MOST_SAID: usize = 255;
