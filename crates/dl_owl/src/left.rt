// Class expressions of a left side that stand next.
ghost use Rattle.dl_terms.specs.declared.role.Basic.TheVariants.{SomeOf};
ghost use Rattle.dl_owl.specs.Expected.{open_then, close_then, role_then, thing_then, sub_then};
ghost use Rattle.dl_owl.specs.Walk.{here, Reads};

use crate::class::{named_class, thing};
use crate::cursor::{Cursor, close, is_word, open};
use crate::fault::OwlFault;
use crate::prefixes::Prefixes;
use crate::refused::refused_sub;
use crate::role::role;
use dl_lex::Keyword;
use dl_names::NameSet;
use dl_terms::Basic;

/// What has a neighbour by a role, behind its keyword.
fn some_of(
    at: &mut Cursor,
    prefixes: &Prefixes,
    names: &mut NameSet,
    text: &mut String,
) -> Result<Basic, OwlFault>
    ensures { Reads (λ k. open_then (role_then (λ r. thing_then (close_then (k (SomeOf r))))))
        (here at.old prefixes.now names.old) (here at.new prefixes.now names.new) result }
{
    open(at)?;
    let over = role(at, prefixes, names, text)?;
    thing(at, prefixes, text)?;
    close(at)?;
    Ok(Basic::SomeOf(over))
}

/// The class expression of a left side that stands next.
pub(crate) fn sub(
    at: &mut Cursor,
    prefixes: &Prefixes,
    names: &mut NameSet,
    text: &mut String,
) -> Result<Basic, OwlFault>
    ensures { Reads sub_then (here at.old prefixes.now names.old)
        (here at.new prefixes.now names.new) result }
{
    let start = at.start();
    if is_word(at, Keyword::ObjectSomeValuesFrom) {
        at.advance()?;
        return some_of(at, prefixes, names, text);
    }
    if let Some(word) = at.keyword() {
        return Err(refused_sub(word, start));
    }
    let class = named_class(at, prefixes, names, text)?;
    Ok(Basic::Class(class))
}
