// A page, and what is put on it.
ghost use Rattle.std.specs.Prelude.{◌∷◌, [], ◌++◌};
ghost use Rattle.text_pieces.specs.Digits.{digits_of};
ghost use Rattle.text_pieces.specs.Page.{Room, Writes};
ghost use Rattle.text_pieces.specs.Pieces.{dotted};

// A lent buffer, and the place in it that the next text is written at.
#[derive(Drop)]
pub struct Page<'a> {
    pub out: &'a mut [u8],
    pub at: usize,
}

impl<'a> Page<'a> {
    pub fn byte(&mut self, b: u8)
        requires { Room self.old (b ∷ []) }
        ensures { Writes self.old (b ∷ []) self.new }
    {
        self.out[self.at] = b;
        self.at += 1;
    }

    pub fn bytes(&mut self, bytes: &[u8])
        requires { Room self.old bytes.now }
        ensures { Writes self.old bytes.now self.new }
    {
        let end = self.at + bytes.len();
        self.out[self.at..end].copy_from_slice(bytes);
        self.at = end;
    }

    pub fn text(&mut self, words: &str)
        requires { Room self.old words.now }
        ensures { Writes self.old words.now self.new }
    {
        self.bytes(words.as_bytes());
    }

    // A number in decimal: the digits of its tenth part first, so that the highest comes first.
    pub fn number(&mut self, n: u64)
        requires { Room self.old (digits_of n) }
        ensures { Writes self.old (digits_of n) self.new }
    {
        if 10 <= n {
            self.number(n / 10);
        }
        self.byte(b'0' + (n % 10) as u8);
    }

    // Bytes, and then a number.
    pub fn numbered(&mut self, bytes: &[u8], n: u64)
        requires { Room self.old (bytes.now ++ digits_of n) }
        ensures { Writes self.old (bytes.now ++ digits_of n) self.new }
    {
        self.bytes(bytes);
        self.number(n);
    }

    // Words, and then a number.
    pub fn labelled(&mut self, words: &str, n: u64)
        requires { Room self.old (words.now ++ digits_of n) }
        ensures { Writes self.old (words.now ++ digits_of n) self.new }
    {
        self.numbered(words.as_bytes(), n);
    }

    // An address, as four numbers with points between them.
    pub fn address(&mut self, addr: u32)
        requires { Room self.old (dotted addr) }
        ensures { Writes self.old (dotted addr) self.new }
    {
        let [a, b, c, d] = addr.to_be_bytes();
        self.number(a as u64);
        self.labelled(".", b as u64);
        self.labelled(".", c as u64);
        self.labelled(".", d as u64);
    }
}
