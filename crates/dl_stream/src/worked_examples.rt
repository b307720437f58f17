//! Which transcripts are legal, on small loads.
ghost use Rattle.std.specs.Prelude.{ℕ};
ghost use Rattle.std.specs.declared.option.Option.TheVariants.{None};
ghost use Rattle.dl_core.specs.Next.{Numbering, IsNumbering};
ghost use Rattle.dl_stream.specs.Transcript.{IsLegalTranscript};
ghost use Rattle.dl_stream.specs.Examples.{b_is_an_a, commit_first, pin_first, at_one_place, nothing_loaded, refused};

/// Transcripts of two streams, and of one, whichever numbers the names have.
pub fn transcript_examples()
    // What one stream commits the other one may pin, or it may pin what was loaded.
    ensures commit_first { (numbering : Numbering) → IsNumbering numbering
        → IsLegalTranscript numbering b_is_an_a None commit_first 2 }
    ensures pin_first { (numbering : Numbering) → IsNumbering numbering
        → IsLegalTranscript numbering b_is_an_a None pin_first 2 }
    // No two events have one place.
    ensures one_place { (numbering : Numbering) (places : ℕ)
        → IsLegalTranscript numbering b_is_an_a None at_one_place places → ⊥ }
    // A refused event has a place, and a query without a pin has none.
    ensures refused { (numbering : Numbering) → IsNumbering numbering
        → IsLegalTranscript numbering nothing_loaded None refused 5 }
{}
