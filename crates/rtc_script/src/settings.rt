//! Lines of settings.
ghost use Rattle.std.specs.Prelude.{◌≡◌, ◌≢◌, ◌≤◌, ℕ, [], ◌∷◌, IfOk, IfSome, IfNone, codes, map};
ghost use Rattle.std.specs.Fmt.{decimal};
ghost use Rattle.rtc_run_history.specs.declared.side.Side.{Side};
ghost use Rattle.rtc_script.specs.Lines.{AreValueWords, AreSettingWords, IsSetting};
ghost use Rattle.rtc_script.specs.Steps.{AreAllSettings};
ghost use Rattle.rtc_script.specs.declared.setting.Setting.{Setting};

use crate::{Setting, cut_words, is_word, read_side, read_u32};
use rtc_run_history::Side;
use rtc_wire::Seq;
use std::alloc::{AllocError, Global};

// A setting of one word.
#[tactic(auto, using(crate::proofs::SettingWords::no_one_word))]
fn read_one_word(word: &[u8]) -> Option<Setting>
    ensures some { IfSome result (λ setting. AreValueWords (word.now ∷ []) setting) }
    ensures none { IfNone result ((setting : Setting) → AreValueWords (word.now ∷ []) setting → ⊥) }
{
    if is_word(word, "lite") {
        Some(Setting::Lite)
    } else if is_word(word, "snap") {
        Some(Setting::Snap)
    } else if is_word(word, "polite") {
        Some(Setting::Polite(true))
    } else if is_word(word, "impolite") {
        Some(Setting::Polite(false))
    } else {
        None
    }
}

// A number that is at most 1000000000.
fn read_size(word: &[u8]) -> Option<u32>
    ensures some { IfSome result (λ size. (word.now ≡ decimal size) × (size ≤ 1000000000)) }
    ensures none { IfNone result ((size : ℕ) → size ≤ 1000000000 → word.now ≢ decimal size) }
{
    let size = read_u32(word)?;
    if size <= 1_000_000_000 {
        Some(size)
    } else {
        None
    }
}

// The setting `buffer`, whose number is this.
#[tactic(auto, using(crate::proofs::SettingWords::no_buffer))]
fn read_buffer(number: &[u8]) -> Option<Setting>
    ensures some { IfSome result (λ setting. AreValueWords (codes "buffer" ∷ number.now ∷ []) setting) }
    ensures none { IfNone result ((setting : Setting) → AreValueWords (codes "buffer" ∷ number.now ∷ []) setting → ⊥) }
{
    let size = read_size(number)?;
    Some(Setting::Buffer(size as u64))
}

// The setting `maxmsg`, whose number is this.
#[tactic(auto, using(crate::proofs::SettingWords::no_max_message))]
fn read_max_message(number: &[u8]) -> Option<Setting>
    ensures some { IfSome result (λ setting. AreValueWords (codes "maxmsg" ∷ number.now ∷ []) setting) }
    ensures none { IfNone result ((setting : Setting) → AreValueWords (codes "maxmsg" ∷ number.now ∷ []) setting → ⊥) }
{
    let size = read_u32(number)?;
    Some(Setting::MaxMessage(size))
}

// The milliseconds between two rounds of statistics, 1 to 1000000000.
fn read_millis(word: &[u8]) -> Option<u32>
    ensures some { IfSome result (λ millis. (word.now ≡ decimal millis) × ((1 ≤ millis) × (millis ≤ 1000000000))) }
    ensures none { IfNone result ((millis : ℕ) → 1 ≤ millis → millis ≤ 1000000000 → word.now ≢ decimal millis) }
{
    let millis = read_size(word)?;
    if 1 <= millis { Some(millis) } else { None }
}

// The setting `stats`, whose number is this.
#[tactic(auto, using(crate::proofs::SettingWords::no_stats))]
fn read_stats(number: &[u8]) -> Option<Setting>
    ensures some { IfSome result (λ setting. AreValueWords (codes "stats" ∷ number.now ∷ []) setting) }
    ensures none { IfNone result ((setting : Setting) → AreValueWords (codes "stats" ∷ number.now ∷ []) setting → ⊥) }
{
    let millis = read_millis(number)?;
    Some(Setting::Stats(millis as u64))
}

// A setting of two words.
#[tactic(auto, using(crate::proofs::SettingWords::no_two_words))]
fn read_two_words(word: &[u8], number: &[u8]) -> Option<Setting>
    ensures some { IfSome result (λ setting. AreValueWords (word.now ∷ number.now ∷ []) setting) }
    ensures none { IfNone result ((setting : Setting) → AreValueWords (word.now ∷ number.now ∷ []) setting → ⊥) }
{
    if is_word(word, "buffer") {
        read_buffer(number)
    } else if is_word(word, "maxmsg") {
        read_max_message(number)
    } else if is_word(word, "stats") {
        read_stats(number)
    } else {
        None
    }
}

fn read_value(words: &[&[u8]]) -> Option<Setting>
    ensures some { IfSome result (λ setting. AreValueWords (map (λ word. word.now) words.now) setting) }
    ensures none { IfNone result ((setting : Setting) → AreValueWords (map (λ word. word.now) words.now) setting → ⊥) }
{
    match words {
        [word] => read_one_word(word),
        [word, number] => read_two_words(word, number),
        _ => None,
    }
}

fn read_behind(verb: &[u8], side: &[u8], value: &[&[u8]]) -> Option<(Side, Setting)>
    ensures some { IfSome result (λ setting. AreSettingWords (verb.now ∷ side.now ∷ map (λ word. word.now) value.now) setting) }
    ensures none { IfNone result ((setting : Side × Setting)
        → AreSettingWords (verb.now ∷ side.now ∷ map (λ word. word.now) value.now) setting → ⊥) }
{
    if !is_word(verb, "set") {
        return None;
    }
    let at = read_side(side)?;
    let setting = read_value(value)?;
    Some((at, setting))
}

fn read_words(words: &[&[u8]]) -> Option<(Side, Setting)>
    ensures some { IfSome result (λ setting. AreSettingWords (map (λ word. word.now) words.now) setting) }
    ensures none { IfNone result ((setting : Side × Setting) → AreSettingWords (map (λ word. word.now) words.now) setting → ⊥) }
{
    let [verb, side, value @ ..] = words else {
        return None;
    };
    read_behind(verb, side, value)
}

fn read_setting(alloc: Global, line: &[u8]) -> Result<Option<(Side, Setting)>, AllocError>
    ensures some { IfOk result (λ read. IfSome read (λ setting. IsSetting line.now setting)) }
    ensures none { IfOk result (λ read. IfNone read ((setting : Side × Setting) → IsSetting line.now setting → ⊥)) }
{
    let words = cut_words(alloc, line)?;
    Ok(read_words(words.as_slice()))
}

/// The settings in front of all other lines.
pub fn read_settings(alloc: Global, lines: &[&[u8]]) -> Result<Seq<(Side, Setting)>, AllocError>
    ensures { IfOk result (λ settings. AreAllSettings (map (λ line. line.now) lines.now) settings) }
{
    let mut settings = Seq::empty(alloc);
    for line in lines {
        let Some(setting) = read_setting(alloc, line)? else {
            return Ok(settings);
        };
        settings.push(setting)?;
    }
    Ok(settings)
}
