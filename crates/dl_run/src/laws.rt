// Laws of the definitions.
ghost use Rattle.std.specs.Prelude.{◌≡◌, ℕ, List};
ghost use Rattle.dl_run.specs.Answered.{AnswerPrints};
ghost use Rattle.dl_run.specs.Defined.{Prints};
ghost use Rattle.dl_run.specs.Words.{Form, HasForm};
ghost use Rattle.dl_run.specs.declared.status.Status.{Status};

/// A law: the bytes of the three files decide what `answer` prints and its status, and the words and the files decide
/// what the program prints and its status.
pub fn outputs_are_determined()
    ensures answer { (ontology facts query : List ℕ) (limit : ℕ) (status other : Status) (text also : List ℕ) →
        AnswerPrints ontology facts query limit status text → AnswerPrints ontology facts query limit other also →
        (status ≡ other) × (text ≡ also) }
    ensures program { (words : List (List ℕ)) (file_of : List ℕ → List ℕ) (status other : Status) (text also : List ℕ) →
        Prints words file_of status text → Prints words file_of other also →
        (status ≡ other) × (text ≡ also) }
{}

/// A law: words have one written form at most.
pub fn words_have_one_form_at_most()
    ensures { (words : List (List ℕ)) (form other : Form) → HasForm words form → HasForm words other → form ≡ other }
{}
