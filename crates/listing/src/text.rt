// The text of a line in the making: bytes, words and decimal numbers are added at its end.
ghost use Rattle.std.specs.Prelude.{◌≡◌, ◌+◌, [], ◌∷◌, ◌++◌, ◌≤◌, ◌<◌, length};
ghost use Rattle.synthesis.specs.Monitor.{mark, meaning};
ghost use Rattle.listing.specs.Text.{text, decimal};
ghost use Rattle.listing.specs.Lines.{lowest_text, answer_text};
ghost use Rattle.listing.specs.LineParts.{Prints};

use crate::Line;
use std::marker::Model;
use synthesis::DROPPED;

// A text of at most 64 bytes: the first len of them, before bytes that are 0. Contracts see the text as a list.
#[derive(Drop)]
pub(crate) struct Text {
    bytes: [u8; 64],
    len: usize,
}

impl Model for Text {
    ghost use Rattle.std.specs.Prelude.{ℕ, ◌≡◌, ◌≤◌, List, take};
    ghost use Rattle.reading.specs.Numbered.{padded};

    ghost Value = { List ℕ };

    ghost view = { λ t. take t.len t.bytes };

    ghost invariant = { λ t. (t.len ≤ 64) × (t.bytes ≡ padded 64 0 (take t.len t.bytes)) };
}

impl Text {
    // No text.
    pub(crate) fn new() -> Self
        ensures { result ≡ [] }
    {
        Text {
            bytes: [0; 64],
            len: 0,
        }
    }

    // The text with a word.
    pub(crate) fn word(mut self, word: &[u8]) -> Self
        requires { length self + length word.now ≤ 64 }
        ensures { result ≡ self ++ word.now }
    {
        let start = self.len;
        let end = start + word.len();
        self.bytes[start..end].copy_from_slice(word);
        self.len = end;
        self
    }

    // The text with one more byte.
    fn push(self, byte: u8) -> Self
        requires { length self < 64 }
        ensures { result ≡ self ++ byte ∷ [] }
    {
        self.word(&[byte])
    }

    // The text with a number in decimal. (std writes numbers too, but promises their digits only where writing succeeds.)
    #[tactic(auto, using(crate::proofs::Decimals::decimal_one, crate::proofs::Decimals::decimal_length))]
    pub(crate) fn decimal(self, n: usize) -> Self
        requires { length self + length (decimal n) ≤ 64 }
        ensures { result ≡ self ++ decimal n }
    {
        if n < 10 {
            return self.push(b'0' + n as u8);
        }
        self.decimal(n / 10).push(b'0' + (n % 10) as u8)
    }

    // The text with a space and a number.
    pub(crate) fn field(self, n: usize) -> Self
        requires { length self + length (decimal n) < 64 }
        ensures { result ≡ self ++ (text " " ++ decimal n) }
    {
        self.push(b' ').decimal(n)
    }

    // The text with a space and a lowest code. A caller can't tell how large the code in an enum is, so it is said here how long the text may be.
    #[tactic(auto, using(crate::proofs::Decimals::field_lengths))]
    pub(crate) fn lowest(self, lowest: Option<u8>) -> Self
        requires { length self + 5 ≤ 64 }
        ensures adds { result ≡ self ++ (text " " ++ lowest_text lowest) }
        ensures lowest_len_bound { length (lowest_text lowest) ≤ 4 }
    {
        match lowest {
            None => self.word(b" none"),
            Some(code) => self.field(code as usize),
        }
    }

    // The text with a space and an entry of a table.
    #[tactic(auto, using(crate::proofs::Decimals::drop_text, crate::proofs::Decimals::next_text, crate::proofs::Decimals::field_lengths))]
    pub(crate) fn entry(self, entry: u16) -> Self
        requires { length self + 6 ≤ 64 }
        ensures { result ≡ self ++ (text " " ++ answer_text (meaning mark entry)) }
    {
        if entry == DROPPED {
            return self.word(b" drop");
        }
        self.field(entry as usize)
    }

    // The line with this text and its end.
    pub(crate) fn line(self) -> Line
        requires { length self < 64 }
        ensures { Prints (self ++ text "\n") result }
    {
        let Text { bytes, len } = self.push(b'\n');
        Line { bytes, len }
    }
}
