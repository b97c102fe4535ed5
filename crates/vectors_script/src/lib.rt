// A script, read: steps, with a `;` or the end of a line after each. The first letter of a step says what it is, and its numbers are
// those in it, in order. In brackets, it prints nothing.
#![tactic(auto)]

// A step's first letter; whether it is in brackets; its numbers, how many there are, and whether the last byte was a digit; and where
// the next step begins.
#[derive(Clone, Copy, Default)]
pub struct Line {
    pub letter: u8,
    pub quiet: bool,
    pub v: [u32; 8],
    pub n: usize,
    pub digit: bool,
    pub next: usize,
}

impl Line {
    // A byte of the step. A digit is one of the last number, or of a new one; past eight numbers it is left out.
    fn take(&mut self, b: u8) {
        if b.is_ascii_digit() {
            if let Some(number) = self.v.get_mut(self.n) {
                *number = number.wrapping_mul(10).wrapping_add(u32::from(b % 16));
                self.digit = true;
            }
            return;
        }
        if self.digit && self.n < 8 {
            self.n += 1;
        }
        self.digit = false;
        if b == b'(' {
            self.quiet = true;
        } else if self.letter == 0 && b.is_ascii_lowercase() {
            self.letter = b;
        }
    }

    // The address in its first four numbers, and the length, the hop and the mark in those after them.
    pub fn addr(&self) -> u32 {
        let [a, b, c, d, ..] = self.v;
        u32::from_be_bytes([byte(a), byte(b), byte(c), byte(d)])
    }

    pub fn len(&self) -> u8 {
        byte(self.v[4])
    }

    pub fn hop(&self) -> u16 {
        (self.v[5] % 65536) as u16
    }

    pub fn mark(&self) -> u8 {
        byte(self.v[6])
    }
}

// A number's last byte.
fn byte(v: u32) -> u8 {
    (v % 256) as u8
}

// The step that begins at a place.
pub fn line_at(script: &[u8], at: usize) -> Line {
    let mut line = Line {
        next: at,
        ..Line::default()
    };
    for i in at..script.len() {
        line.next = i + 1;
        match script[i] {
            b';' | b'\n' => break,
            b => line.take(b),
        }
    }
    line
}

// The step at a place in two scripts, the second right after the first.
pub fn line_in(head: &[u8], script: &[u8], at: usize) -> Line {
    if at < head.len() {
        return line_at(head, at);
    }
    let line = line_at(script, at - head.len());
    Line {
        next: line.next.wrapping_add(head.len()),
        ..line
    }
}
