// A line of text, written piece by piece into a buffer.
ghost use Rattle.std.specs.Prelude.{◌≡◌, ◌+◌, ◌≤◌, [], ◌++◌, length, take};
ghost use Rattle.folder.specs.Line.{numeral, next};

// The most digits of a 64-bit number.
const DIGITS: usize = 20;

// Room for six numbers of twenty digits with a byte behind each.
const ROOM: usize = 126;

#[derive(Drop)]
pub struct Line {
    pub text: [u8; ROOM],
    pub len: usize,
    ghost within: { len ≤ length text },
}

impl Line {
    pub fn new() -> Line
        ensures { take result.len result.text ≡ [] }
    {
        Line {
            text: [0; ROOM],
            len: 0,
        }
    }

    pub fn as_bytes(&self) -> &[u8]
        ensures { result.now ≡ take self.now.len self.now.text }
    {
        &self.text[..self.len]
    }

    pub fn put(&mut self, s: &[u8])
        requires { self.old.len + length s.now ≤ 126 }
        ensures text { take self.new.len self.new.text ≡ take self.old.len self.old.text ++ s.now }
        ensures len { self.new.len ≡ self.old.len + length s.now }
    {
        let end = self.len + s.len();
        self.text[self.len..end].copy_from_slice(s);
        self.len = end;
    }

    // A number in decimal.
    pub fn put_number(&mut self, n: u64)
        requires { self.old.len + 20 ≤ 126 }
        ensures text { take self.new.len self.new.text ≡ take self.old.len self.old.text ++ numeral n }
        ensures len { self.new.len ≤ self.old.len + 20 }
    {
        let mut digits = [0u8; DIGITS];
        let k = io::decimal(n, &mut digits);
        self.put(&digits[..k]);
    }

    // A number after others.
    pub fn put_next(&mut self, n: u64)
        requires { self.old.len + 21 ≤ 126 }
        ensures text { take self.new.len self.new.text ≡ take self.old.len self.old.text ++ next n }
        ensures len { self.new.len ≤ self.old.len + 21 }
    {
        self.put(b" ");
        self.put_number(n);
    }
}
