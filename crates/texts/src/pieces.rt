// A page, and the pieces that are printed on it: bytes, words, numbers in decimal and lines.
ghost use Rattle.std.specs.Prelude.{[], ◌∷◌, ◌+◌, ◌<◌, ◌^◌, length};
ghost use Rattle.meaning.specs.Texts.{digits, line, line_feed, space};
ghost use Rattle.texts.specs.Written.{Puts};

use itoa::Buffer;
use leaves::put;
use meaning::Offset;

const SPACE: u8 = 32;

const LINE_FEED: u8 = 10;

// An output, and where its next byte goes. Past the output's end nothing is put, and the offset still grows.
// kept: no `fmt::Write`, since std says what a `write!` wrote only where it answers Ok, and says nowhere that it does.
#[derive(Drop)]
pub struct Page<'a> {
    pub out: &'a mut [u8],
    pub at: Offset,
}

impl<'a> Page<'a> {
    // One byte.
    fn byte(&mut self, b: u8)
        requires { self.old.at.byte < 2 ^ 63 }
        ensures { Puts (b ∷ []) 1 self.old self.new }
    {
        put(self.out, self.at, b);
        self.at.byte += 1;
    }

    // What ends a line.
    pub fn end(&mut self)
        requires { self.old.at.byte < 2 ^ 63 }
        ensures { Puts (line_feed ∷ []) 1 self.old self.new }
    {
        self.byte(LINE_FEED);
    }

    // A word.
    pub fn word(&mut self, word: &[u8])
        requires { self.old.at.byte + length word.now < 2 ^ 63 }
        ensures { Puts word.now (length word.now) self.old self.new }
    {
        for &b in word {
            self.byte(b);
        }
    }

    // A number, highest digit first.
    pub fn digits(&mut self, x: usize)
        requires { self.old.at.byte < 2 ^ 62 }
        ensures { Puts (digits x) 20 self.old self.new }
    {
        let mut text = Buffer::new();
        self.word(text.format(x).as_bytes());
    }

    // A further word of a line.
    pub fn next(&mut self, word: &[u8])
        requires { self.old.at.byte + length word.now < 2 ^ 62 }
        ensures { Puts (space ∷ word.now) (1 + length word.now) self.old self.new }
    {
        self.byte(SPACE);
        self.word(word);
    }

    // A number that is a further word of a line.
    pub fn number(&mut self, x: usize)
        requires { self.old.at.byte + 1 < 2 ^ 62 }
        ensures { Puts (space ∷ digits x) 21 self.old self.new }
    {
        self.byte(SPACE);
        self.digits(x);
    }

    // A line of a word and a number.
    pub fn line(&mut self, word: &[u8], x: usize)
        requires { self.old.at.byte + length word.now + 32 < 2 ^ 62 }
        ensures { Puts (line word.now (digits x ∷ [])) (length word.now + 22) self.old self.new }
    {
        self.word(word);
        self.number(x);
        self.end();
    }
}
