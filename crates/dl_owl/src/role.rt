// Roles that stand next.
ghost use Rattle.std.specs.Prelude.{◌≡◌};
ghost use Rattle.dl_text.specs.AxiomText.{property_of};
ghost use Rattle.dl_owl.specs.Expected.{role_then};
ghost use Rattle.dl_owl.specs.Walk.{here, Reads};

use crate::cursor::{Cursor, close, is_word, open};
use crate::fault::OwlFault;
use crate::name::property;
use crate::prefixes::Prefixes;
use dl_lex::Keyword;
use dl_names::NameSet;
use dl_terms::{Base, Role};

/// The role that stands next.
pub(crate) fn role(
    at: &mut Cursor,
    prefixes: &Prefixes,
    names: &mut NameSet,
    text: &mut String,
) -> Result<Role, OwlFault>
    ensures { Reads role_then (here at.old prefixes.now names.old)
        (here at.new prefixes.now names.new) result }
{
    if !is_word(at, Keyword::ObjectInverseOf) {
        let place = property(at, prefixes, names, text)?;
        return Ok(Role {
            base: Base::Named(place),
            inverse: false,
        });
    }
    at.advance()?;
    open(at)?;
    let place = property(at, prefixes, names, text)?;
    close(at)?;
    Ok(Role {
        base: Base::Named(place),
        inverse: true,
    })
}

/// The object property of a role.
pub(crate) fn property_of(role: Role) -> u32
    ensures { result ≡ property_of role }
{
    match role.base {
        Base::Named(name) => name,
        Base::Auxiliary { role, .. } => role,
    }
}
