//! That reading a text is the grammar, in both versions of the language: the flag tells whether text values are allowed.
ghost use Rattle.std.specs.Prelude.{◌≡◌, ◌-◌, ℕ, Bool, true, false, List, length, Ok, Some};
ghost use Rattle.acc_token.specs.Tokens.{left_at};
ghost use Rattle.acc_lang.specs.declared.error.LangKind.{LangKind};
ghost use Rattle.acc_lang.specs.First.{behind_all, Seen};
ghost use Rattle.std.specs.Str.{IsUtf8};
ghost use Rattle.acc_txn.specs.declared.parts.BodyParts.{BodyParts};
ghost use Rattle.acc_lang.specs.Grammar.{Spelled, IsTextOf};
ghost use Rattle.acc_lang.specs.Reading.{reading, reading_fault};

/// What is read from a text is spelled there.
pub fn what_is_read_is_spelled()
    ensures { (texts : Bool) (text : List ℕ) (parts : BodyParts) → reading texts text ≡ Ok parts → Spelled texts text parts }
{}

/// What is spelled in a text, and keeps the rules of bodies, is read from it.
pub fn what_is_spelled_is_read()
    ensures { (texts : Bool) (text : List ℕ) (parts : BodyParts) → IsTextOf texts text parts → reading texts text ≡ Ok parts }
{}

/// The parts that are read from a text keep the rules of bodies.
pub fn what_is_read_is_a_body()
    ensures { (texts : Bool) (text : List ℕ) (parts : BodyParts) → IsUtf8 text → reading texts text ≡ Ok parts → IsTextOf texts text parts }
{}

/// A text of version 1 is one of version 2, and says the same there.
pub fn texts_of_version_1_are_of_version_2()
    ensures { (text : List ℕ) (parts : BodyParts) → IsTextOf false text parts → IsTextOf true text parts }
{}

/// The first fault is found as soon as its token is seen: no text of the grammar begins with the tokens up to it and with
/// it, and after a word v also the next one. The place of a fault is that of its token.
pub fn faults_are_found_at_once()
    ensures { (texts : Bool) (text : List ℕ) (kind : LangKind) (at : ℕ) → reading_fault texts text ≡ Some (kind, at)
        → (count : ℕ) × (at ≡ length text - left_at (behind_all count text))
        × ((other : List ℕ) (parts : BodyParts) → Seen count text other → IsTextOf texts other parts → ⊥) }
{}
