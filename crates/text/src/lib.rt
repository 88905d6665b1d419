// Texts written into a lent buffer: single bytes, byte texts, decimal and hexadecimal numbers.
//
// A writer has the buffer and the place of the next byte; each call writes its text there and moves on behind it. Every
// other byte of the buffer stays. The caller shows that the text fits: `specs/Text/Laws` has the lengths. Numbers are not printed
// by `write!`: std's writer over a slice says how many bytes it took, and `Writes` says which.
#![tactic(auto)]

ghost use Rattle.std.specs.Prelude.{◌≡◌, [], ◌∷◌, ◌<◌, length};
ghost use Rattle.text.specs.Text.{decimal_of, two_digits, hex_digit, hex_of};
ghost use Rattle.text.specs.Writing.{HasRoom, Writes};

// The buffer is lent and its place stands beside it, since there is no heap for a `Vec`. Not `Drop`: `end` gives the buffer back.
pub struct Writer<'a> {
    pub out: &'a mut [u8],
    pub at: usize,
}

impl<'a> Writer<'a> {
    // At the start of a buffer.
    pub fn new(out: &'a mut [u8]) -> Writer<'a>
        ensures same { result.out.ghost_name ≡ out.entry.ghost_name }
        ensures now { result.out.now ≡ out.old }
        ensures at { result.at ≡ 0 }
    {
        Writer { out, at: 0 }
    }

    // The place behind all that was written; the buffer is the caller's again.
    pub fn end(self) -> usize
        ensures at { result ≡ self.entry.at }
        ensures out { self.exit.0.now ≡ self.entry.out.now }
    {
        let Writer { out: _out, at } = self;
        at
    }

    // One byte.
    pub fn byte(&mut self, b: u8)
        requires { HasRoom self.old 1 }
        ensures { Writes self.old (b ∷ []) self.new }
    {
        self.out[self.at] = b;
        self.at += 1;
    }

    // All bytes of text.
    pub fn text(&mut self, text: &[u8])
        requires { HasRoom self.old (length text.now) }
        ensures { Writes self.old text.now self.new }
    {
        let end = self.at + text.len();
        self.out[self.at..end].copy_from_slice(text);
        self.at = end;
    }

    // Two digits of a number below 100.
    fn two(&mut self, n: u32)
        requires room { HasRoom self.old 2 }
        requires small { n < 100 }
        ensures { Writes self.old (two_digits n) self.new }
    {
        self.text(&[(48 + n / 10) as u8, (48 + n % 10) as u8]);
    }

    // A number below 100 in decimal. This and the next two differ in a number alone and stay three: in one function each would call
    // itself, which nothing that a drill reaches does, and a const parameter would have to be computed.
    fn up_to_two(&mut self, n: u32)
        requires room { HasRoom self.old (length (decimal_of n)) }
        requires small { n < 100 }
        ensures { Writes self.old (decimal_of n) self.new }
    {
        if n < 10 {
            self.byte((48 + n) as u8);
        } else {
            self.two(n);
        }
    }

    // A number below 10,000.
    fn up_to_four(&mut self, n: u32)
        requires room { HasRoom self.old (length (decimal_of n)) }
        requires small { n < 10000 }
        ensures { Writes self.old (decimal_of n) self.new }
    {
        if n < 100 {
            return self.up_to_two(n);
        }
        self.up_to_two(n / 100);
        self.two(n % 100);
    }

    // A number below 1,000,000: every word is.
    fn up_to_six(&mut self, n: u32)
        requires room { HasRoom self.old (length (decimal_of n)) }
        requires small { n < 1000000 }
        ensures { Writes self.old (decimal_of n) self.new }
    {
        if n < 10000 {
            return self.up_to_four(n);
        }
        self.up_to_four(n / 100);
        self.two(n % 100);
    }

    // A number of any width. The digits are written from the last one back.
    fn long(&mut self, n: u64)
        requires { HasRoom self.old (length (decimal_of n)) }
        ensures { Writes self.old (decimal_of n) self.new }
    {
        let end = self.at + decimal_width(n);
        let mut rest = n;
        for place in (self.at + 1..end).rev() {
            self.out[place] = (48 + rest % 10) as u8;
            rest /= 10;
        }
        self.out[self.at] = (48 + rest % 10) as u8;
        self.at = end;
    }

    // n in decimal, no zero in front.
    pub fn decimal(&mut self, n: u64)
        requires { HasRoom self.old (length (decimal_of n)) }
        ensures { Writes self.old (decimal_of n) self.new }
    {
        if n < 1000000 {
            self.up_to_six(n as u32);
        } else {
            self.long(n);
        }
    }

    // A word as four upper-case hexadecimal digits.
    pub fn hex(&mut self, n: u16)
        requires { HasRoom self.old 4 }
        ensures { Writes self.old (hex_of n) self.new }
    {
        let places = [n / 4096, n / 256, n / 16, n];
        self.text(&places.map(|place| hex_digit(place % 16)));
    }
}

// How many decimal digits n has.
pub fn decimal_width(n: u64) -> usize
    ensures { result ≡ length (decimal_of n) }
{
    n.checked_ilog10().unwrap_or(0) as usize + 1
}

// The upper-case hexadecimal digit of a number below 16.
pub fn hex_digit(d: u16) -> u8
    requires { d < 16 }
    ensures { result ≡ hex_digit d }
{
    if d < 10 {
        (48 + d) as u8
    } else {
        (55 + d) as u8
    }
}
