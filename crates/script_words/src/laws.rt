//! Laws of words, each the clause of a function with an empty body.

ghost use Rattle.script_words.specs.Laws.{BytesAreHex, NumbersAreDecimal};

/// A word spells a number if and only if it is the number's decimal text, as it is printed, and the number is below
/// 2^32: of each number there is one spelling. No premise.
pub fn numbers_are_decimal()
    ensures { NumbersAreDecimal }
{}

/// A word spells bytes if and only if it is their hexadecimal text, two digits a byte, its letters taken as small ones.
/// No premise.
pub fn bytes_are_hex()
    ensures { BytesAreHex }
{}
