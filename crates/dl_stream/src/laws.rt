// Laws of the definitions.
ghost use Rattle.std.specs.Prelude.{◌≡◌, ℕ, List};
ghost use Rattle.dl_names.specs.NameList.{Text};
ghost use Rattle.dl_stream.specs.declared.streams.Command.{Command};
ghost use Rattle.dl_stream.specs.declared.fault.StreamFault.{StreamFault};
ghost use Rattle.dl_stream.specs.Reading.{IsValue, IsFirstFault};

/// A law: a stream file behind some names has one value or one first fault, never both.
pub fn files_have_one_value_or_one_first_fault()
    ensures one_value { (bytes : List ℕ) (names : List Text) (streams other : List (List Command))
        (after last : List Text) → IsValue bytes names streams after → IsValue bytes names other last →
        (streams ≡ other) × (after ≡ last) }
    ensures one_fault { (bytes : List ℕ) (names : List Text) (fault other : StreamFault) →
        IsFirstFault bytes names fault → IsFirstFault bytes names other → fault ≡ other }
    ensures not_both { (bytes : List ℕ) (names : List Text) (streams : List (List Command))
        (after : List Text) (fault : StreamFault) →
        IsValue bytes names streams after → IsFirstFault bytes names fault → ⊥ }
{}
