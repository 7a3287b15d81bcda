//! Laws of arguments and of properties, each the contract of a function that does nothing.
ghost use Rattle.std.specs.Prelude.{◌≡◌, ◌++◌, ◌∷◌, ℕ, List, None, Some};
ghost use Rattle.std.specs.BTreeMap.{is_at};
ghost use Rattle.std.specs.List.Sorted.{IsStrictlySortedBy};
ghost use Rattle.std.specs.Map.{lookup, keys_of};
ghost use Rattle.wire_signature.specs.SingleType.{SingleType};
ghost use Rattle.wire_tree.specs.Datum.{Datum};
ghost use Rattle.wire_message.specs.Front.{MessageView};
ghost use Rattle.object_interface.specs.Arguments.{IsBody};
ghost use Rattle.object_tree.specs.Texts.{text_cmp};
ghost use Rattle.object_standard.specs.Properties.{NamesInterface, sorted};

/// A body has one reading: a message's bytes settle its values of some types, and so the interface that its arguments name and
/// the other arguments.
pub fn a_body_has_one_reading()
    ensures values { (m : MessageView) (types : List SingleType) (values others : List Datum) → IsBody m types values → IsBody m types others → values ≡ others }
    ensures names { (m : MessageView) (types : List SingleType) (interface name : List ℕ) (rest others : List Datum) → NamesInterface m types interface rest → NamesInterface m types name others → (interface ≡ name) × (rest ≡ others) }
{}

/// The properties of an interface are told by their names: ascending, of two of one name the later one, and no others.
#[tactic(auto, using(crate::proofs::Sorting::sorted_ascending, crate::proofs::Sorting::sorted_later, crate::proofs::Sorting::sorted_no_other))]
pub fn properties_are_told_by_name()
    ensures ascending { (properties : List (List ℕ × Datum)) → IsStrictlySortedBy text_cmp (keys_of (sorted properties)) }
    ensures later { (before behind : List (List ℕ × Datum)) (name : List ℕ) (value : Datum) → lookup (is_at (text_cmp name)) behind ≡ None → lookup (is_at (text_cmp name)) (sorted (before ++ (name, value) ∷ behind)) ≡ Some value }
    ensures none { (properties : List (List ℕ × Datum)) (name : List ℕ) → lookup (is_at (text_cmp name)) properties ≡ None → lookup (is_at (text_cmp name)) (sorted properties) ≡ None }
{}
