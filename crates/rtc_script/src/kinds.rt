//! Words of kinds of media.
ghost use Rattle.std.specs.Prelude.{◌≡◌, ◌≢◌, IfSome, IfNone};
ghost use Rattle.rtc_script.specs.Words.{kind_text};
ghost use Rattle.rtc_sdp_values.specs.declared.media_kind.MediaKind.{MediaKind};

use crate::words::is_word;
use rtc_sdp_values::MediaKind;

/// The kind of media whose word it is.
pub fn read_kind(word: &[u8]) -> Option<MediaKind>
    ensures some { IfSome result (λ kind. word.now ≡ kind_text kind) }
    ensures none { IfNone result ((kind : MediaKind) → word.now ≢ kind_text kind) }
{
    if is_word(word, "audio") {
        Some(MediaKind::Audio)
    } else if is_word(word, "video") {
        Some(MediaKind::Video)
    } else {
        None
    }
}
