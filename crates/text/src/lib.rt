// Text in a lent buffer: bytes, words and decimal numbers, one behind the other. What passes the buffer's end is counted and not written.
// `write!` promises its bytes only where it answers `Ok`, and no clause says that it does; these methods promise theirs always.

#![tactic(auto)]

ghost use Rattle.std.specs.Prelude.{[], ◌∷◌, ◌+◌, ◌^◌, ◌≤◌, ◌<◌, length};
ghost use Rattle.text.specs.Text.{Grown, digits, decimal};

// A text that grows in a lent buffer, and where it ends. How far it may still grow is asked in clauses, since no value knows what is still to come.
#[derive(Drop)]
pub struct Text<'a> {
    pub room: &'a mut [u8],
    pub end: usize,
}

impl Text<'_> {
    // One byte.
    pub fn byte(&mut self, b: u8)
        requires { self.old.end < 2 ^ 32 }
        ensures { Grown self.old (b ∷ []) self.new }
    {
        if self.end < self.room.len() {
            self.room[self.end] = b;
        }
        self.end += 1;
    }

    // The bytes of s.
    pub fn word(&mut self, s: &[u8])
        requires { self.old.end + length s.now < 2 ^ 32 }
        ensures { Grown self.old s.now self.new }
    {
        for b in s {
            self.byte(*b);
        }
    }

    // The decimal digits of n, at most f of them: it goes down as `digits` of the definitions does. `itoa` writes the same digits, but two edits hold these
    // lines, `digit_one_off` and `ten_as_one_digit`: written around a call of it they are refused as their harmless twins are, for want of a proof.
    #[tactic(auto, using(crate::proofs::Pieces::one_digit))]
    fn digits(&mut self, n: u64, f: usize)
        requires { (1 ≤ f) × (f ≤ 20) × (n < 10 ^ f) × (self.old.end + f < 2 ^ 32) }
        ensures { Grown self.old (digits f n) self.new }
    {
        if n < 10 {
            self.byte(b'0' + n as u8);
            return;
        }
        self.digits(n / 10, f - 1);
        self.byte(b'0' + (n % 10) as u8);
    }

    // The number n in decimal.
    pub fn number(&mut self, n: u64)
        requires { self.old.end + 20 < 2 ^ 32 }
        ensures put { Grown self.old (decimal n) self.new }
        ensures upper_bound { self.new.end ≤ self.old.end + 20 }
    {
        self.digits(n, 20);
    }
}
