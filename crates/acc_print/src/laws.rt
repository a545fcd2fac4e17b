//! Laws of every body's canonical text. Each is the contract of a function that changes nothing.
ghost use Rattle.std.specs.Prelude.{◌≡◌, Bool, true, false, Ok};
ghost use Rattle.acc_txn.specs.declared.parts.BodyParts.{BodyParts};
ghost use Rattle.acc_txn.specs.Rules.{IsBody};
ghost use Rattle.acc_print.specs.Canonical.{canonical_text};
ghost use Rattle.acc_lang.specs.Grammar.{IsTextOf};
ghost use Rattle.acc_lang.specs.Reading.{reading};
ghost use Rattle.acc_lang.specs.Texts.{has_text_value};
ghost use Rattle.acc_print.specs.Numbers.{IsSaid};

use crate::numbers::visit;
use acc_lang::laws::what_is_spelled_is_read;
use acc_txn::Body;

/// The canonical text of parts that keep the rules of bodies, and whose terms the language can say, is a text of the grammar,
/// and says these parts. The flag tells whether text values are allowed, as in version 2.
pub fn canonical_texts_are_of_the_grammar()
    ensures { (texts : Bool) (parts : BodyParts) → IsBody parts → IsSaid texts parts → IsTextOf texts (canonical_text parts) parts }
{}

/// The canonical text of a body is a text of version 2 that says this body, and is read as this body. So it is in version 1
/// where the body has no text value.
pub fn canonical_text_is_read(body: &Body)
    ensures grammar { IsTextOf true (canonical_text body.now) body.now }
    ensures reading { reading true (canonical_text body.now) ≡ Ok body.now }
    ensures grammar_v1 { has_text_value body.now ≡ false → IsTextOf false (canonical_text body.now) body.now }
    ensures reading_v1 { has_text_value body.now ≡ false → reading false (canonical_text body.now) ≡ Ok body.now }
{
    visit(body.parts());
    what_is_spelled_is_read();
}
