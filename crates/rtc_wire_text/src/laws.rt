//! What is written is read back: laws over the definitions, which take no time at all.
ghost use Rattle.std.specs.Prelude.{◌≡◌, ◌≢◌, ◌<◌, ◌≤◌, ◌^◌, ◌++◌, ◌∷◌, [], ℕ, List, Some};
ghost use Rattle.std.specs.Fmt.{decimal};
ghost use Rattle.std.specs.List.{AllByRecursion};
ghost use Rattle.rtc_wire_text.specs.Cuts.{cut, Lacks};
ghost use Rattle.rtc_wire_text.specs.Hex.{hex_bytes, hex_text};
ghost use Rattle.rtc_wire_text.specs.Numbers.{number, number_up_to};
ghost use Rattle.rtc_wire_text.specs.Words.{parts, after_each};

/// A text is cut at the first of its bytes.
pub fn cuts_read_back()
    ensures { (byte : ℕ) (before behind : List ℕ) → Lacks byte before → cut byte (before ++ (byte ∷ behind)) ≡ Some (before, behind) }
{}

/// Parts with a byte between that none of them has are read back.
pub fn parts_read_back()
    ensures { (at : ℕ) (part : List ℕ) (rest : List (List ℕ)) → Lacks at part → AllByRecursion (Lacks at) rest
        → parts at (part ++ after_each at rest) ≡ part ∷ rest }
{}

/// The decimal of a number is read as it.
pub fn numbers_read_back()
    ensures any { (n : ℕ) → n < 2 ^ 64 → number (decimal n) ≡ Some n }
    ensures bounded { (most n : ℕ) → n ≤ most → n < 2 ^ 64 → number_up_to most (decimal n) ≡ Some n }
{}

/// The hex digits of bytes, at least one, are read as them.
pub fn hex_reads_back()
    ensures { (bytes : List ℕ) → bytes ≢ [] → AllByRecursion (λ byte. byte < 256) bytes → hex_bytes (hex_text bytes) ≡ Some bytes }
{}
