//! What the journals of version 1 ask for. Each law is the contract of a function that does nothing.
ghost use Rattle.std.specs.Prelude.{◌≡◌, ℕ, false, List, Some};
ghost use Rattle.std.specs.List.{AllByRecursion};
ghost use Rattle.acc_lang.specs.Texts.{has_text_value};
ghost use Rattle.acc_message.specs.declared.message.Message.{Message};
ghost use Rattle.acc_message.specs.declared.item.Item.{Item};
ghost use Rattle.acc_message.specs.Items.{message_at};
ghost use Rattle.acc_message.specs.Run.{Cluster};
ghost use Rattle.acc_payloads.specs.Texts.{has_text};
ghost use Rattle.acc_safety.specs.Valid.{IsStanding};

/// Where no body has a text value, no message that was sent has one: cells are written by outcomes alone, and an outcome takes its cells
/// from its body and from the cells that it read.
pub fn messages_have_numbers_alone()
    ensures { (cluster : Cluster) (items : List Item) (number : ℕ) (m : Message) → IsStanding cluster items →
        AllByRecursion (λ body. has_text_value body ≡ false) cluster.bodies → message_at items number ≡ Some m → has_text m ≡ false }
{}
