//! A text of a few lines, which is put together in place before it is added to a longer one.

ghost use Rattle.std.specs.Prelude.{◌≡◌, ◌+◌, ◌*◌, ◌≤◌, ◌∷◌, ◌++◌, [], length, take};
ghost use Rattle.std.specs.Fmt.{decimal};
ghost use Rattle.report_text.specs.Texts.{numbers_text, word_and_numbers};

use itoa::write_digits;
use std::marker::Model;

/// The most bytes of a `LineText`.
pub const ROOM: usize = 512;

/// The most bytes of a number and the space before it.
pub const SPACED: usize = 21;

/// The most digits of a number.
pub const DIGITS: usize = 20;

// A number with its digits, which begin where the array does. Contracts see the number.
#[derive(Drop)]
struct Digits {
    number: u64,
    bytes: [u8; DIGITS],
    len: usize,
}

impl Digits {
    // Those of 0.
    #[inline]
    fn new() -> Digits
        ensures { result ≡ 0 }
    {
        Digits {
            number: 0,
            bytes: [b'0'; DIGITS],
            len: 1,
        }
    }

    // Makes them those of a number. They stay where they are its own.
    #[inline]
    fn set(&mut self, number: u64)
        ensures { self.new ≡ number }
    {
        if number != self.number {
            let mut bytes = [0; 2 * DIGITS];
            let start = write_digits(number, &mut bytes, DIGITS);
            self.bytes.copy_from_slice(&bytes[start..start + DIGITS]);
            self.len = DIGITS - start;
            self.number = number;
        }
    }
}

impl Model for Digits {
    ghost use Rattle.std.specs.Prelude.{ℕ, ◌≡◌, ◌≤◌, take};
    ghost use Rattle.std.specs.Fmt.{decimal};

    ghost Value = { ℕ };

    ghost view = { λ digits. digits.number };

    ghost invariant = { λ digits. (digits.len ≤ 20) × (take digits.len digits.bytes ≡ decimal digits.number) };
}

/// A text of at most `ROOM` bytes. Contracts see its list of bytes.
///
/// It keeps the digits of two numbers that it had last, since most lines have the numbers of the line before.
#[derive(Drop)]
pub struct LineText {
    bytes: [u8; ROOM],
    len: usize,
    first: Digits,
    spaced: Digits,
}

impl LineText {
    /// No text.
    #[inline]
    pub fn new() -> LineText
        ensures { result ≡ [] }
    {
        LineText {
            bytes: [0; ROOM],
            len: 0,
            first: Digits::new(),
            spaced: Digits::new(),
        }
    }

    /// Takes the text out.
    #[inline]
    pub fn clear(&mut self)
        ensures { self.new ≡ [] }
    {
        self.len = 0;
    }

    /// Returns how many bytes there are.
    #[inline]
    pub fn len(&self) -> usize
        ensures { result ≡ length self.now }
    {
        self.len
    }

    /// Returns the text.
    #[inline]
    pub fn as_slice(&self) -> &[u8]
        ensures { result.now ≡ self.now }
    {
        &self.bytes[..self.len]
    }

    /// Adds a word. There is room for it.
    #[inline(always)]
    #[tactic(auto, using(std::proofs::lemmas::List::Edits::paste_more))]
    pub fn put_word<const N: usize>(&mut self, word: &[u8; N])
        requires { N + length self.old ≤ ROOM }
        ensures text { self.new ≡ self.old ++ word.now }
        ensures len { length self.new ≡ length self.old + N }
    {
        // A loop over a few bytes of a literal becomes one or two stores, and no call that copies.
        let end = self.len;
        for place in 0..N {
            self.bytes[end + place] = word[place];
        }
        self.len = end + N;
    }

    /// Adds the number that a line begins with. There is room for the longest.
    #[inline]
    pub fn put_first(&mut self, number: u64)
        requires { DIGITS + length self.old ≤ ROOM }
        ensures text { self.new ≡ self.old ++ decimal number }
        ensures len { length self.new ≤ length self.old + DIGITS }
    {
        self.first.set(number);
        let (bytes, len) = (self.first.bytes, self.first.len);
        self.put_some(&bytes, len);
    }

    // Adds this many bytes of an array. There is room for all of them.
    #[inline(always)]
    fn put_some(&mut self, bytes: &[u8; DIGITS], len: usize)
        requires few { len ≤ DIGITS }
        requires room { DIGITS + length self.old ≤ ROOM }
        ensures text { self.new ≡ self.old ++ take len bytes.now }
        ensures len { length self.new ≡ length self.old + len }
    {
        let end = self.len;
        self.put_word(bytes);
        self.len = end + len;
    }

    /// Adds a word and a number. There is room for the longest.
    #[inline]
    pub fn put_one<const N: usize>(&mut self, word: &[u8; N], one: u64)
        requires { N + SPACED + length self.old ≤ ROOM }
        ensures text { self.new ≡ self.old ++ word_and_numbers word.now (one ∷ []) }
        ensures len { length self.new ≤ length self.old + N + SPACED }
    {
        self.put_word(word);
        self.put_spaced(one);
    }

    /// Adds a word and two numbers. There is room for the longest.
    #[inline]
    pub fn put_two<const N: usize>(&mut self, word: &[u8; N], one: u64, two: u64)
        requires { N + 2 * SPACED + length self.old ≤ ROOM }
        ensures text { self.new ≡ self.old ++ word_and_numbers word.now (one ∷ two ∷ []) }
        ensures len { length self.new ≤ length self.old + N + 2 * SPACED }
    {
        self.put_word(word);
        self.put_spaced(one);
        self.put_spaced(two);
    }

    /// Adds a word and three numbers, the last of which isn't kept. There is room for the longest.
    #[inline]
    pub fn put_three<const N: usize>(&mut self, word: &[u8; N], one: u64, two: u64, three: u64)
        requires { N + 3 * SPACED + length self.old ≤ ROOM }
        ensures text { self.new ≡ self.old ++ word_and_numbers word.now (one ∷ two ∷ three ∷ []) }
        ensures len { length self.new ≤ length self.old + N + 3 * SPACED }
    {
        self.put_word(word);
        self.put_spaced(one);
        self.put_spaced(two);
        self.put_fresh(three);
    }

    // Adds a number after a space. Most have one digit.
    #[inline]
    fn put_spaced(&mut self, number: u64)
        requires { SPACED + length self.old ≤ ROOM }
        ensures text { self.new ≡ self.old ++ numbers_text (number ∷ []) }
        ensures len { length self.new ≤ length self.old + SPACED }
    {
        if number < 10 {
            self.put_word(&[b' ', b'0' + number as u8]);
        } else {
            self.put_long(number);
        }
    }

    /// Adds a number after a space. Its digits aren't kept: it is seldom that of the line before. There is room for the
    /// longest.
    pub fn put_fresh(&mut self, number: u64)
        requires { SPACED + length self.old ≤ ROOM }
        ensures text { self.new ≡ self.old ++ numbers_text (number ∷ []) }
        ensures len { length self.new ≤ length self.old + SPACED }
    {
        if number < 10 {
            self.put_word(&[b' ', b'0' + number as u8]);
        } else {
            let mut digits = Digits::new();
            digits.set(number);
            self.put_word(b" ");
            self.put_some(&digits.bytes, digits.len);
        }
    }

    // Adds a number of any digits after a space.
    #[inline(never)]
    fn put_long(&mut self, number: u64)
        requires { SPACED + length self.old ≤ ROOM }
        ensures text { self.new ≡ self.old ++ numbers_text (number ∷ []) }
        ensures len { length self.new ≤ length self.old + SPACED }
    {
        self.put_word(b" ");
        self.spaced.set(number);
        let (bytes, len) = (self.spaced.bytes, self.spaced.len);
        self.put_some(&bytes, len);
    }
}

impl Model for LineText {
    ghost use Rattle.std.specs.Prelude.{ℕ, List, ◌≡◌, ◌≤◌, length, take};
    ghost use Rattle.report_text.specs.declared.line.TheConstants.{ROOM};

    ghost Value = { List ℕ };

    ghost view = { λ line. take line.len line.bytes };

    ghost invariant = { λ line. (line.len ≤ ROOM) × (length line.bytes ≡ ROOM) };
}
