//! What is written is read back: laws over the definitions, which take no time at all.
ghost use Rattle.std.specs.Prelude.{◌≡◌, ◌<◌, ℕ, List, Some, true};
ghost use Rattle.rtc_wire_text.specs.Cuts.{Lacks};
ghost use Rattle.rtc_sdp_values.specs.declared.candidate.Candidate.{Candidate};
ghost use Rattle.rtc_sdp_values.specs.declared.fingerprint.Fingerprint.{Fingerprint};
ghost use Rattle.rtc_sdp_attributes.specs.Forms.{is_word_up_to, is_spaceless, word_up_to, spaceless};
ghost use Rattle.rtc_sdp_attributes.specs.AttributeForms as form;
ghost use Rattle.rtc_sdp_attributes.specs.AttributeTexts.{fingerprint_text, candidate_text};
ghost use Rattle.rtc_sdp_attributes.specs.PlainValues.{IsPlainFingerprint, IsPlainCandidate};

/// Credentials and chunks are written as they are.
pub fn words_read_back()
    ensures word { (most : ℕ) (text : List ℕ) → is_word_up_to most text ≡ true → word_up_to most text ≡ Some text }
    ensures chunk { (text : List ℕ) → is_spaceless text ≡ true → spaceless text ≡ Some text }
{}

/// A plain fingerprint is read back, and its text ends no line.
pub fn fingerprints_read_back()
    ensures again { (fingerprint : Fingerprint) → IsPlainFingerprint fingerprint → form.fingerprint (fingerprint_text fingerprint)
        ≡ Some fingerprint }
    ensures one_line { (byte : ℕ) → byte < 32 → (fingerprint : Fingerprint) → IsPlainFingerprint fingerprint
        → Lacks byte (fingerprint_text fingerprint) }
{}

/// A plain candidate is read back, and its text ends no line.
pub fn candidates_read_back()
    ensures again { (candidate : Candidate) → IsPlainCandidate candidate → form.candidate (candidate_text candidate) ≡ Some candidate }
    ensures one_line { (byte : ℕ) → byte < 32 → (candidate : Candidate) → IsPlainCandidate candidate
        → Lacks byte (candidate_text candidate) }
{}
