// A line of text by value, made part by part.
ghost use Rattle.std.specs.Prelude.{◌≡◌, ◌<◌, ◌≤◌, ◌^◌, take, []};
ghost use Rattle.io.specs.Digits.{last_digits};
ghost use Rattle.page.specs.Text.{decimal_of, hex_of, line_of, pushed, said, ended_of, refused_text};

use base_mi::Mi;

// No line of the port page has more than 84 octets, its end included.
pub const ROOM: usize = 96;

// The first `len` octets are the text, those past it are zeros. No `String`: a line by value, in fixed memory; and no type for the two, since
// `line_of` and the bench cases speak of both.
#[derive(Clone, Copy)]
pub struct Line {
    pub text: [u8; ROOM],
    pub len: usize,
}

// Each method says more, as far as there is room. No `write!`: its contract leaves open whether it ends in an error, and what is said then.
impl Line {
    #[tactic(auto, unfolding(crate::specs::Text::line_of))]
    pub(crate) fn new() -> Line
        ensures { result ≡ line_of [] }
    {
        Line {
            text: [0; ROOM],
            len: 0,
        }
    }

    pub fn octets(&self) -> &[u8]
        ensures { result.now ≡ take self.now.len self.now.text }
    {
        &self.text[..self.len.min(ROOM)]
    }

    fn octet(&mut self, x: u8)
        ensures { self.new ≡ pushed self.old x }
    {
        if self.len < ROOM {
            self.text[self.len] = x;
            self.len += 1;
        }
    }

    #[tactic(auto, unfolding(crate::specs::Text::said))]
    pub(crate) fn words(&mut self, s: &[u8])
        ensures { self.new ≡ said self.old s.now }
    {
        for &x in s {
            self.octet(x);
        }
    }

    pub(crate) fn number(&mut self, x: u64)
        ensures { self.new ≡ said self.old (decimal_of x) }
    {
        let mut text = [0; 20];
        let k = io::decimal(x, &mut text);
        self.words(&text[..k]);
    }

    fn hex(&mut self, x: u64, width: usize)
        requires width_nonzero { (0 < width) × (width ≤ 16) }
        requires x_bound { x < 16 ^ width }
        ensures { self.new ≡ said self.old (last_digits 16 width x) }
    {
        let mut text = [0; 16];
        let k = io::hex(x, width, &mut text);
        self.words(&text[..k]);
    }

    pub(crate) fn mi(&mut self, m: Mi)
        ensures { self.new ≡ said self.old (hex_of m) }
    {
        self.hex(m.hi, 16);
        self.hex(m.lo as u64, 8);
    }
}

// The line with its end, where there is room for it.
#[tactic(auto, unfolding(crate::specs::Text::ended_of))]
pub fn ended(mut l: Line) -> Line
    ensures { result ≡ ended_of l }
{
    l.octet(b'\n');
    l
}

// The line of a refusal, by its number: a line for every number is promised, of which a `Refusal` has nineteen.
pub fn refused(number: u8) -> Line
    ensures { result ≡ line_of (refused_text number) }
{
    let mut line = Line::new();
    line.words(b"refused ");
    line.number(number as u64);
    line.words(b"\n");
    line
}
