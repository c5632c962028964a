//! What the reading says, in the words of its subject.
ghost use Rattle.std.specs.Prelude.{◌≡◌, ℕ, List, Ok, Err};
ghost use Rattle.rtc_sdp_values.specs.declared.sdp.Sdp.{Sdp};
ghost use Rattle.rtc_sdp_grammar.specs.ItemForm.{items_of};
ghost use Rattle.rtc_sdp_reader.specs.Reading.{reading};
ghost use Rattle.rtc_sdp_reader.specs.FirstRefused.{IsFirstRefused, IsUnrefused};

/// A text is refused at the number of its first refused line, and read if there is none.
pub fn first_refused_line_is_told()
    ensures refused { (text : List ℕ) (number : ℕ) → reading text ≡ Err number → IsFirstRefused (items_of text) number }
    ensures read { (text : List ℕ) (sdp : Sdp) → reading text ≡ Ok sdp → IsUnrefused (items_of text) }
{}
