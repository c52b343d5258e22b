//! The words of a clause file, one after another.

ghost use Rattle.std.specs.Prelude.{◌≡◌, ◌≤◌, ◌<◌, ◌^◌, ◌+◌, true, false, length, drop, [], ◌∷◌, IfSome, IfNone};
ghost use Rattle.std.specs.List.{prefix_len};
ghost use Rattle.ax_dimacs.specs.Words.{is_space, is_inside, is_in_line, is_word_start, left, end, word};

/// A word, and the place of its first byte in the file.
#[derive(Clone, Copy)]
pub struct Word<'a> {
    pub at: usize,
    pub text: &'a [u8],
}

/// The words that are left to read.
#[derive(Clone, Copy)]
pub struct Words<'a> {
    /// The bytes that are left.
    pub rest: &'a [u8],
    /// The place of the first of them.
    pub at: usize,
    /// Whether a line begins with it.
    pub fresh: bool,
}

fn is_space(b: u8) -> bool
    ensures { result ≡ is_space b }
{
    b == b' ' || b == b'\t' || b == b'\r' || b == b'\n'
}

/// How many bytes stand before the first space.
fn word_len(s: &[u8]) -> usize
    ensures value { result ≡ prefix_len is_inside s.now }
    ensures within { result ≤ length s.now }
{
    s.iter().take_while(|b| !is_space(**b)).count()
}

/// How many bytes stand before the first line feed.
fn line_len(s: &[u8]) -> usize
    ensures value { result ≡ prefix_len is_in_line s.now }
    ensures within { result ≤ length s.now }
{
    s.iter().take_while(|b| **b != b'\n').count()
}

impl<'a> Words<'a> {
    /// All words of a file.
    pub fn new(bytes: &'a [u8]) -> Words<'a>
        ensures rest { result.rest.now ≡ bytes.now }
        ensures at { result.at ≡ 0 }
        ensures fresh { result.fresh ≡ true }
    {
        Words {
            rest: bytes,
            at: 0,
            fresh: true,
        }
    }

    /// Leaves out so many bytes, of which none begins a line.
    fn pass(&mut self, n: usize)
        requires within { n ≤ length self.old.rest.now }
        requires fits { end self.old < 2 ^ 64 }
        ensures rest { self.new.rest.now ≡ drop n self.old.rest.now }
        ensures at { self.new.at ≡ self.old.at + n }
        ensures fresh { self.new.fresh ≡ false }
    {
        self.rest = &self.rest[n..];
        self.at += n;
        self.fresh = false;
    }

    /// Leaves out the spaces and comments before the next word.
    fn skip(&mut self)
        requires { end self.old < 2 ^ 64 }
        ensures left { left self.new ≡ left self.old }
        ensures end { end self.new ≡ end self.old }
        ensures starts { is_word_start self.new.fresh self.new.rest.now ≡ true }
    {
        while let [b, tail @ ..] = self.rest {
            if self.fresh && *b == b'c' {
                self.pass(line_len(self.rest));
            } else if is_space(*b) {
                self.fresh = *b == b'\n';
                self.rest = tail;
                self.at += 1;
            } else {
                return;
            }
        }
    }

    /// The next word.
    pub fn next(&mut self) -> Option<Word<'a>>
        requires { end self.old < 2 ^ 64 }
        ensures some { IfSome result (λ w. left self.old ≡ word w ∷ left self.new) }
        ensures none { IfNone result (left self.old ≡ []) }
        ensures last { IfNone result (self.new.at ≡ end self.old) }
        ensures end { end self.new ≡ end self.old }
    {
        self.skip();
        if self.rest.is_empty() {
            return None;
        }
        let at = self.at;
        let n = word_len(self.rest);
        let text = &self.rest[..n];
        self.pass(n);
        Some(Word { at, text })
    }
}
