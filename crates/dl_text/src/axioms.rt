// Axioms printed to a sink, piece by piece. It takes no memory.
ghost use Rattle.std.specs.Prelude.{◌≡◌, ◌++◌, ◌∷◌, [], length, map};
ghost use Rattle.std.specs.List.{All, flat_map};
ghost use Rattle.dl_lex.specs.declared.keyword.Keyword.TheVariants as keyword;
ghost use Rattle.dl_text.specs.NameText.{AreBelow};
ghost use Rattle.dl_text.specs.AxiomText.{joined, construct_text, basic_text, part_text, parts_text, role_text, axiom_keyword, operand_texts, axiom_text};
ghost use Rattle.dl_io.specs.Printing.{Prints};
ghost use Rattle.dl_terms.specs.Occurring.{role_names, basic_names, part_names, axiom_names};

use crate::operand::{Operand, put_joined};
use crate::pieces::{Piece, print_pieces};
use dl_io::{Failed, Sink};
use dl_lex::Keyword;
use dl_names::Names;
use dl_terms::{Axiom, Basic, Part, Role};

/// Writes an axiom in the functional-style syntax, with its names in full. The numbers of names are below
/// `names.len()`. It takes no memory. Where a write failed, the sink got some first bytes of it.
pub fn print_axiom<S: Sink>(sink: &mut S, stated: &Axiom, names: &Names) -> Result<(), Failed>
    requires { AreBelow (length names.now) (axiom_names stated.now) }
    ensures { Prints S.got S.faults S.lent result sink.old sink.new
        (axiom_text names.now stated.now) }
{
    print_pieces(
        sink,
        &[Piece::Text(keyword_of(stated).text()), Piece::Text("(")],
        names,
    )?;
    put_operands(sink, stated, names)?;
    print_pieces(sink, &[Piece::Text(")")], names)
}

/// The keyword of an axiom.
fn keyword_of(stated: &Axiom) -> Keyword
    ensures { result ≡ axiom_keyword stated.now }
{
    match stated {
        Axiom::SubClass { .. } => Keyword::SubClassOf,
        Axiom::EquivalentClasses(_) => Keyword::EquivalentClasses,
        Axiom::DisjointClasses(_) => Keyword::DisjointClasses,
        Axiom::SubRole { .. } => Keyword::SubObjectPropertyOf,
        Axiom::EquivalentRoles(_) => Keyword::EquivalentObjectProperties,
        Axiom::DisjointRoles(_) => Keyword::DisjointObjectProperties,
        Axiom::InverseRoles { .. } => Keyword::InverseObjectProperties,
        Axiom::Domain { .. } => Keyword::ObjectPropertyDomain,
        Axiom::Range { .. } => Keyword::ObjectPropertyRange,
        Axiom::Symmetric(_) => Keyword::SymmetricObjectProperty,
        Axiom::Asymmetric(_) => Keyword::AsymmetricObjectProperty,
        Axiom::Irreflexive(_) => Keyword::IrreflexiveObjectProperty,
    }
}

/// Prints the operands of an axiom, with one space between them.
fn put_operands<S: Sink>(sink: &mut S, stated: &Axiom, names: &Names) -> Result<(), Failed>
    requires { AreBelow (length names.now) (axiom_names stated.now) }
    ensures { Prints S.got S.faults S.lent result sink.old sink.new
        (joined (operand_texts names.now stated.now)) }
{
    match stated {
        Axiom::SubClass { sub, sup } => put_inclusion(sink, *sub, sup.as_slice(), names),
        Axiom::EquivalentClasses(basics) => put_joined(sink, basics.as_slice(), names),
        Axiom::DisjointClasses(basics) => put_joined(sink, basics.as_slice(), names),
        Axiom::SubRole { sub, sup } => put_two_roles(sink, *sub, *sup, names),
        Axiom::EquivalentRoles(roles) => put_joined(sink, roles.as_slice(), names),
        Axiom::DisjointRoles(roles) => put_joined(sink, roles.as_slice(), names),
        Axiom::InverseRoles { one, two } => put_two_roles(sink, *one, *two, names),
        Axiom::Domain { role, sup } => put_role_and_parts(sink, *role, sup.as_slice(), names),
        Axiom::Range { role, sup } => put_role_and_parts(sink, *role, sup.as_slice(), names),
        Axiom::Symmetric(role) => print_pieces(sink, &[Piece::Role(*role)], names),
        Axiom::Asymmetric(role) => print_pieces(sink, &[Piece::Role(*role)], names),
        Axiom::Irreflexive(role) => print_pieces(sink, &[Piece::Role(*role)], names),
    }
}

/// Prints two roles, with a space between them.
fn put_two_roles<S: Sink>(sink: &mut S, one: Role, two: Role, names: &Names) -> Result<(), Failed>
    requires { AreBelow (length names.now) (role_names one ++ role_names two) }
    ensures { Prints S.got S.faults S.lent result sink.old sink.new
        (joined (role_text names.now one ∷ role_text names.now two ∷ [])) }
{
    print_pieces(
        sink,
        &[Piece::Role(one), Piece::Text(" "), Piece::Role(two)],
        names,
    )
}

/// Prints the two sides of an inclusion, with a space between them.
fn put_inclusion<S: Sink>(
    sink: &mut S,
    sub: Basic,
    sup: &[Part],
    names: &Names,
) -> Result<(), Failed>
    requires { AreBelow (length names.now) (basic_names sub ++ flat_map part_names sup.now) }
    ensures { Prints S.got S.faults S.lent result sink.old sink.new
        (joined (basic_text names.now sub ∷ parts_text names.now sup.now ∷ [])) }
{
    sub.put(sink, names)?;
    print_pieces(sink, &[Piece::Text(" ")], names)?;
    put_parts(sink, sup, names)
}

/// Prints a role and the parts of a right side, with a space between them.
fn put_role_and_parts<S: Sink>(
    sink: &mut S,
    role: Role,
    parts: &[Part],
    names: &Names,
) -> Result<(), Failed>
    requires { AreBelow (length names.now) (role_names role ++ flat_map part_names parts.now) }
    ensures { Prints S.got S.faults S.lent result sink.old sink.new
        (joined (role_text names.now role ∷ parts_text names.now parts.now ∷ [])) }
{
    print_pieces(sink, &[Piece::Role(role), Piece::Text(" ")], names)?;
    put_parts(sink, parts, names)
}

/// Prints the parts of a right side: one as it is, several as one intersection.
fn put_parts<S: Sink>(sink: &mut S, parts: &[Part], names: &Names) -> Result<(), Failed>
    requires { AreBelow (length names.now) (flat_map part_names parts.now) }
    ensures { Prints S.got S.faults S.lent result sink.old sink.new
        (parts_text names.now parts.now) }
{
    if parts.len() == 1 {
        return parts[0].put(sink, names);
    }
    put_intersection(sink, parts, names)
}

/// Prints the intersection of parts.
fn put_intersection<S: Sink>(sink: &mut S, parts: &[Part], names: &Names) -> Result<(), Failed>
    requires { AreBelow (length names.now) (flat_map part_names parts.now) }
    ensures { Prints S.got S.faults S.lent result sink.old sink.new
        (construct_text keyword.ObjectIntersectionOf (map (part_text names.now) parts.now)) }
{
    print_pieces(sink, &[Piece::Text("ObjectIntersectionOf(")], names)?;
    put_joined(sink, parts, names)?;
    print_pieces(sink, &[Piece::Text(")")], names)
}
