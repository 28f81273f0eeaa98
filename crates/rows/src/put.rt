// The line that is being written: texts go into a lent buffer one behind the other.
ghost use Rattle.std.specs.Prelude.{◌∷◌, [], ◌≡◌, ◌+◌, ◌≤◌, ◌<◌, length};
ghost use Rattle.decimals.specs.Decimal.{digit_byte, decimal};
ghost use Rattle.rows.specs.Row.{field_text, score_text, word_text};
ghost use Rattle.rows.specs.Appended.{Appended};

use crate::Word;

// The buffer, and the place behind what is written of the line. (How much room is left is no ghost field: each method asks for another room.)
#[derive(Drop)]
pub(crate) struct Line<'a> {
    pub(crate) out: &'a mut [u8],
    pub(crate) at: usize,
}

impl Line<'_> {
    fn byte(&mut self, b: u8)
        requires { self.old.at < length self.old.out.now }
        ensures { Appended self.old (b ∷ []) self.new }
    {
        self.out[self.at] = b;
        self.at += 1;
    }

    pub(crate) fn text(&mut self, s: &[u8])
        requires { self.old.at + length s.now ≤ length self.old.out.now }
        ensures { Appended self.old s.now self.new }
    {
        let end = self.at + s.len();
        self.out[self.at..end].copy_from_slice(s);
        self.at = end;
    }

    // The digits of a number: those of its tenth, and then its last one.
    // By hand: no clause of `write!` says that it succeeds where there is room, and a line that has room must not be refused.
    pub(crate) fn number(&mut self, n: u64)
        requires { self.old.at + length (decimal n) ≤ length self.old.out.now }
        ensures { Appended self.old (decimal n) self.new }
    {
        if n < 10 {
            self.byte(digit(n));
        } else {
            self.number(n / 10);
            self.byte(digit(n % 10));
        }
    }

    // A number and the comma behind it.
    pub(crate) fn field(&mut self, n: u64)
        requires { self.old.at + 21 ≤ length self.old.out.now }
        ensures text { Appended self.old (field_text n) self.new }
        ensures room { self.new.at ≤ self.old.at + 21 }
    {
        self.number(n);
        self.byte(b',');
    }

    // The score and the comma behind it.
    #[tactic(auto, unfolding(crate::specs::Row::score_text))]
    pub(crate) fn score(&mut self, score: Option<u64>)
        requires { self.old.at + 21 ≤ length self.old.out.now }
        ensures text { Appended self.old (score_text score) self.new }
        ensures room { self.new.at ≤ self.old.at + 21 }
    {
        match score {
            None => self.byte(b','),
            Some(n) => self.field(n),
        }
    }

    // The word of the last field, and the line's end.
    #[tactic(auto, unfolding(crate::specs::Row::word_text))]
    pub(crate) fn word(&mut self, w: Word)
        requires { self.old.at + 11 ≤ length self.old.out.now }
        ensures text { Appended self.old (word_text w) self.new }
        ensures room { self.new.at ≤ self.old.at + 11 }
    {
        match w {
            Word::Early => self.text(b"early\r\n"),
            Word::Live => self.text(b"live\r\n"),
            Word::Frozen => self.text(b"frozen\r\n"),
            Word::Undecided => self.text(b"undecided\r\n"),
            Word::Resting => self.text(b"resting\r\n"),
        }
    }
}

// The byte of a digit. (By `as`: it is below 10 by the `requires`, and no `From` goes from u64 to u8.)
fn digit(d: u64) -> u8
    requires { d < 10 }
    ensures { result ≡ digit_byte d }
{
    b'0' + d as u8
}
