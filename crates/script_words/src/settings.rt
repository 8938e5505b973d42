//! The options of a pair: their spelling.
#![tactic(auto, unfolding(crate::specs::Tests::and_then))]

ghost use Rattle.std.specs.Prelude.{◌≡◌, Some};
ghost use Rattle.std.specs.Option.{option_map, option_map_or, option_copied};
ghost use Rattle.pair_settings.specs.Settings.{key_text};
ghost use Rattle.script_words.specs.Settings as rules;
ghost use Rattle.script_words.specs.Words.{behind};

use crate::fault::Cause;
use crate::words::read_number;
use pair_settings::{Setting, SideKey};
use step_kinds::Side;

/// Returns the option without a number that a word spells.
fn plain_setting(word: &[u8]) -> Option<Setting>
    ensures { result ≡ rules.plain_setting word.now }
{
    value_of! { word:
        b"up" => Setting::Up,
        b"strict" => Setting::Strict,
        b"raw" => Setting::Raw,
    }
}

/// Returns what stands before and after the first equals sign of a word.
fn split_at_equals(word: &[u8]) -> Option<(&[u8], &[u8])>
    ensures key { option_map_or (λ parts. parts.0.now) result word.now ≡ rules.before_equals word.now }
    ensures number { option_map (λ parts. parts.1.now) result ≡ rules.behind_equals word.now }
{
    for (i, byte) in word.iter().enumerate() {
        if *byte == b'=' {
            return Some((&word[..i], &word[i + 1..]));
        }
    }
    None
}

/// Returns what a word has after a key; `None` if and only if it doesn't begin with the key.
pub fn behind_key<'a>(key: &[u8], word: &'a [u8]) -> Option<&'a [u8]>
    ensures { option_copied result ≡ behind key.now word.now }
{
    word.strip_prefix(key)
}

/// Returns the sides that a word means where it begins with the key: both, or the one that stands after it.
fn sides_behind(key: SideKey, word: &[u8]) -> Option<(SideKey, Option<Side>)>
    ensures { option_map (λ scope. λ number. Setting.OfSide scope.0 scope.1 number) result ≡ rules.scoped key (behind (key_text key) word.now) }
{
    match behind_key(key.text(), word)? {
        [] => Some((key, None)),
        [b'A'] => Some((key, Some(Side::A))),
        [b'B'] => Some((key, Some(Side::B))),
        _ => None,
    }
}

/// Returns the key of a side's number and the sides that a word means.
fn side_key(word: &[u8]) -> Option<(SideKey, Option<Side>)>
    ensures { option_map (λ scope. λ number. Setting.OfSide scope.0 scope.1 number) result ≡ rules.side_setting word.now }
{
    sides_behind(SideKey::Size, word)
        .or(sides_behind(SideKey::Cap, word))
        .or(sides_behind(SideKey::Windows, word))
        .or(sides_behind(SideKey::Queues, word))
        .or(sides_behind(SideKey::Version, word))
}

/// Returns the option of a key and its number.
fn keyed_setting(key: &[u8], digits: &[u8]) -> Result<Setting, Cause>
    ensures { result ≡ rules.keyed_word key.now (Some digits.now) }
{
    if key == b"mtu".as_slice() {
        return Ok(Setting::Mtu {
            number: read_number(digits)?,
        });
    }
    let (key, side) = side_key(key).ok_or(Cause::UnknownWord)?;
    let number = read_number(digits)?;
    Ok(Setting::OfSide { key, side, number })
}

/// Returns the option that a word spells.
///
/// # Errors
///
/// An option without a number (`up`, `strict`, `raw`) has none. Of any other word:
///
/// 1. [`Cause::UnknownWord`] if it has no equals sign, or what stands before the first is no option's key.
/// 2. Else [`Cause::BadNumber`] if what stands after that sign spells no number.
pub fn read_setting(word: &[u8]) -> Result<Setting, Cause>
    ensures { result ≡ rules.setting_word word.now }
{
    if let Some(setting) = plain_setting(word) {
        return Ok(setting);
    }
    let (key, digits) = split_at_equals(word).ok_or(Cause::UnknownWord)?;
    keyed_setting(key, digits)
}
