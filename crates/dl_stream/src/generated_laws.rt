// Laws of the generated input.
ghost use Rattle.std.specs.Prelude.{ℕ, ◌+◌, ◌<◌, ◌≡◌, All, length};
ghost use Rattle.dl_terms.specs.Auxiliaries.{HasNoAuxiliary};
ghost use Rattle.dl_terms.specs.Occurring.{axiom_names, fact_names};
ghost use Rattle.dl_terms.specs.Queries.{IsWellFormed};
ghost use Rattle.dl_text.specs.NameText.{AreBelow};
ghost use Rattle.dl_event.specs.Auxiliaries.{ItemHasNoAuxiliary};
ghost use Rattle.dl_stream.specs.Commands.{CommandBelow};
ghost use Rattle.dl_stream.specs.Generator.{name_texts, generated_axioms, drawn_facts, generated_commands, generated_edits, generated_query};

/// A law: the generated input meets what loading, printing and asking want. All its names are among the names, no axiom
/// has an auxiliary role, and the query is well formed.
pub fn generated_input_is_fit()
    ensures names { (size : ℕ) → length (name_texts size) ≡ 40 + size }
    ensures axioms { (size : ℕ) → All HasNoAuxiliary (generated_axioms size) }
    ensures edits { All (λ edit. ItemHasNoAuxiliary edit.item) generated_edits }
    ensures query { (size : ℕ) → IsWellFormed (generated_query size) }
    ensures axiom_names { (size : ℕ)
        → All (λ stated. AreBelow (40 + size) (axiom_names stated)) (generated_axioms size) }
    ensures fact_names { (size state n : ℕ) → 0 < size
        → All (λ fact. AreBelow (40 + size) (fact_names fact)) (drawn_facts size state n) }
    ensures command_names { (size : ℕ) → All (CommandBelow (40 + size)) (generated_commands size) }
{}
