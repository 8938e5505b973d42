//! The options that the words of a line spell, none of them twice.
#![tactic(auto, unfolding(crate::specs::Tests::and_then))]

ghost use Rattle.std.specs.Prelude.{◌≡◌, ◌≤◌, ◌∷◌, ◌++◌, [], false, length, map, IfOk};
ghost use Rattle.pair_settings.specs.Settings.{has_setting};
ghost use Rattle.script_words.specs.Reads.{ReadsLine, result_map};
ghost use Rattle.script_words.specs.Settings as rules;

use crate::fault::{Cause, LineError, LineFault, at};
use crate::settings::read_setting;
use pair_settings::{Setting, has_setting};
use std::alloc::Global;
use step_kinds::Items;

/// One more option: it isn't there yet, and its number is in its range.
fn new_setting(settings: &[Setting], word: &[u8]) -> Result<Setting, LineFault>
    requires { length settings.now ≤ 19 }
    ensures value { result_map (λ setting. settings.now ++ setting ∷ []) result ≡ rules.with_setting settings.now word.now }
    ensures is_new { IfOk result (λ setting. has_setting setting settings.now ≡ false) }
{
    let place = 5 + settings.len() as u32;
    let setting = at(place, read_setting(word))?;
    if has_setting(setting, settings) {
        return Err(Cause::Repeated.at(place));
    }
    if !setting.is_in_range() {
        return Err(LineFault {
            word: place,
            cause: Cause::BadGeometry,
            range: setting.range(),
        });
    }
    Ok(setting)
}

/// Returns the options that the words of a pair's line from the fifth on spell.
///
/// # Errors
///
/// [`LineError::OutOfMemory`] if memory runs out. Else [`LineError::Fault`] if a word has a fault: that of the first
/// such word, at its number in the line. Of a word it is the first of these:
///
/// 1. the cause of [`read_setting`], if it answers one,
/// 2. [`Cause::Repeated`], if a word before it spells the same option, with whatever number,
/// 3. [`Cause::BadGeometry`] with the option's range, if the number isn't one that the option may have.
#[tactic(auto, using(crate::proofs::FewSettings::apart_none, crate::proofs::FewSettings::few_settings), unfolding(crate::specs::Tests::and_then))]
pub fn read_settings(alloc: Global, words: &[&[u8]]) -> Result<Items<Setting>, LineError>
    ensures { ReadsLine result (rules.settings_from [] (map (λ word. word.now) words.now)) }
{
    let mut settings = Items::new(alloc);
    for word in words {
        let setting = new_setting(settings.as_slice(), word)?;
        settings.push(setting)?;
    }
    Ok(settings)
}
