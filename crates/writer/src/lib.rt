#![tactic(auto)]

// Bytes written into a part that is lent, one piece after another.
ghost use Rattle.std.specs.Prelude.{[], ◌∷◌, ◌+◌, ◌≤◌, ◌<◌, length};
ghost use Rattle.writer.specs.Decimal.{decimal, field, number_end, field_max};
ghost use Rattle.writer.specs.Written.{Writes, Room};

// A part that is lent, and the place of the byte that is written next. Not only the part that is left: contracts speak of all bytes that
// are lent, those before the place too, and the length that a call hands back is the place.
#[derive(Drop)]
pub struct Writer<'a> {
    pub part: &'a mut [u8],
    pub at: usize,
}

impl Writer<'_> {
    // One byte.
    pub fn byte(&mut self, b: u8)
        requires { Room self.old 1 }
        ensures { Writes self.old self.new (b ∷ []) }
    {
        self.part[self.at] = b;
        self.at += 1;
    }

    // A copy of the bytes s. The library's copy would be a `memmove`, which firmware would have to bring.
    pub fn bytes(&mut self, s: &[u8])
        requires { Room self.old (length s.now) }
        ensures { Writes self.old self.new s.now }
    {
        for &b in s {
            self.byte(b);
        }
    }

    // A number in base ten: the digits of its tenth, and then its last digit. The toolchain's crate `itoa` does it by a table of digits, which
    // takes three times the code.
    pub fn number(&mut self, n: u64)
        requires { Room self.old (length (decimal n)) }
        ensures { Writes self.old self.new (decimal n) }
    {
        if n < 10 {
            self.byte(b'0' + n as u8);
        } else {
            self.number(n / 10);
            self.byte(b'0' + (n % 10) as u8);
        }
    }

    // A tab and a number of at most 10 digits; every figure of a plan is one. Not copied into each line: the archive's code has a bound.
    #[inline(never)]
    pub fn field(&mut self, n: u64)
        requires { record { short : n < number_end; room : Room self.old field_max } }
        ensures wrote { Writes self.old self.new (field n) }
        ensures upper_bound { self.new.at ≤ self.old.at + field_max }
    {
        self.byte(b'\t');
        self.number(n);
    }
}
