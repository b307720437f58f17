// Laws of the grammar.
ghost use Rattle.std.specs.Prelude.{◌≡◌, ℕ, List};
ghost use Rattle.dl_lex.specs.declared.keyword.Keyword.{Keyword};
ghost use Rattle.dl_lex.specs.declared.token.Token.{Token};
ghost use Rattle.dl_lex.specs.Keywords.{keyword_text};
ghost use Rattle.dl_lex.specs.Grammar.{IsNextToken, IsFaultAt};

/// A law: from an offset one token at most is the next, of one kind, and a fault comes at one offset at most and only
/// where no token is the next.
pub fn tokens_are_unique()
    ensures one_token { (bytes : List ℕ) (offset : ℕ) (s t : Token)
        → IsNextToken bytes offset s → IsNextToken bytes offset t → s ≡ t }
    ensures fault_or_token { (bytes : List ℕ) (offset at : ℕ) (t : Token)
        → IsFaultAt bytes offset at → ¬ IsNextToken bytes offset t }
    ensures one_fault { (bytes : List ℕ) (offset f g : ℕ)
        → IsFaultAt bytes offset f → IsFaultAt bytes offset g → f ≡ g }
{}

/// A law: a text is that of one keyword at most.
pub fn keywords_are_unique()
    ensures { (j k : Keyword) → keyword_text j ≡ keyword_text k → j ≡ k }
{}
