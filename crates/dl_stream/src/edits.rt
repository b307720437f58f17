// The edits of the lines of a commit.
ghost use Rattle.std.specs.Prelude.{◌≡◌, ◌≢◌, ◌++◌, true, false, not, map, IfErr, OnOk};
ghost use Rattle.std.specs.List.{list_all};
ghost use Rattle.dl_names.specs.NameList.{Extends};
ghost use Rattle.dl_triples.specs.Lines.{IsLine, is_line_byte};
ghost use Rattle.dl_stream.specs.Edits.{edit, fact_edits, document_edits, is_triple_text, triple_kind, axiom_kind, HasEditFault};
ghost use Rattle.dl_stream.specs.Parts.{AddsEdits, ToldAt};
ghost use Rattle.dl_event.specs.declared.event.Item.TheVariants as item;

use crate::fault::{Kind, StreamFault};
use dl_event::{Edit, Item};
use dl_names::NameSet;
use dl_owl::{Document, OwlFault, read_axiom};
use dl_terms::{Axiom, Fact, List, NoMemory};
use dl_triples::{TripleFault, read_triples};
use std::alloc::Global;

/// Adds the edits that the text of a line says, by the number of the line.
pub(crate) fn read_edits(
    alloc: Global,
    add: bool,
    text: &[u8],
    n: u64,
    names: &mut NameSet,
    made: &mut List<Edit>,
) -> Result<(), StreamFault>
    ensures ok { OnOk result (AddsEdits add text.now names.old names.new made.old made.new) }
    ensures fault { IfErr result (ToldAt n (HasEditFault text.now names.old)) }
    ensures grows { Extends names.old names.new }
{
    if is_triple_text(text) {
        read_triple_edits(alloc, add, text, n, names, made)
    } else {
        read_axiom_edits(alloc, add, text, n, names, made)
    }
}

/// Whether a text that begins so is a triple.
fn is_triple_text(text: &[u8]) -> bool
    ensures { result ≡ is_triple_text text.now }
{
    text.starts_with(b"<") || text.starts_with(b"_:")
}

/// Adds the edit of a triple.
fn read_triple_edits(
    alloc: Global,
    add: bool,
    text: &[u8],
    n: u64,
    names: &mut NameSet,
    made: &mut List<Edit>,
) -> Result<(), StreamFault>
    requires { is_triple_text text.now ≡ true }
    ensures ok { OnOk result (AddsEdits add text.now names.old names.new made.old made.new) }
    ensures fault { IfErr result (ToldAt n (HasEditFault text.now names.old)) }
    ensures grows { Extends names.old names.new }
{
    if !is_line(text) {
        return Err(StreamFault::Line {
            n,
            kind: Kind::Triple,
        });
    }
    match read_triples(alloc, text, names) {
        Ok(triples) => match add_facts(add, triples.facts.as_slice(), made) {
            Ok(()) => Ok(()),
            Err(NoMemory) => Err(StreamFault::NoMemory),
        },
        Err(fault) => Err(triple_fault(n, fault)),
    }
}

/// Whether no line end stands in a text.
fn is_line(text: &[u8]) -> bool
    ensures { result ≡ list_all is_line_byte text.now }
{
    text.iter().all(|byte| *byte != b'\r' && *byte != b'\n')
}

/// The fault of a line with this number by that of its triple.
fn triple_fault(n: u64, fault: TripleFault) -> StreamFault
    ensures none { fault ≡ TripleFault.NoMemory → result ≡ StreamFault.NoMemory }
    ensures some { fault ≢ TripleFault.NoMemory → result ≡ StreamFault.Line n (triple_kind fault) }
{
    let kind = match fault {
        TripleFault::NoMemory => return StreamFault::NoMemory,
        TripleFault::TooManyNames { .. } => Kind::TooManyNames,
        _ => Kind::Triple,
    };
    StreamFault::Line { n, kind }
}

/// Adds the edit of an axiom, a fact or a declaration in functional-style syntax.
fn read_axiom_edits(
    alloc: Global,
    add: bool,
    text: &[u8],
    n: u64,
    names: &mut NameSet,
    made: &mut List<Edit>,
) -> Result<(), StreamFault>
    requires { is_triple_text text.now ≡ false }
    ensures ok { OnOk result (AddsEdits add text.now names.old names.new made.old made.new) }
    ensures fault { IfErr result (ToldAt n (HasEditFault text.now names.old)) }
    ensures grows { Extends names.old names.new }
{
    match read_axiom(alloc, text, names) {
        Ok(document) => match add_document(add, document, made) {
            Ok(()) => Ok(()),
            Err(NoMemory) => Err(StreamFault::NoMemory),
        },
        Err(fault) => Err(axiom_fault(n, fault)),
    }
}

/// The fault of a line with this number by that of its axiom.
fn axiom_fault(n: u64, fault: OwlFault) -> StreamFault
    ensures none { fault ≡ OwlFault.NoMemory → result ≡ StreamFault.NoMemory }
    ensures some { fault ≢ OwlFault.NoMemory → result ≡ StreamFault.Line n (axiom_kind fault) }
{
    let kind = match fault {
        OwlFault::NoMemory => return StreamFault::NoMemory,
        OwlFault::TooManyNames { .. } => Kind::TooManyNames,
        _ => Kind::Axiom,
    };
    StreamFault::Line { n, kind }
}

/// Adds the edits of a document. A removed declaration makes none.
fn add_document(add: bool, document: Document, made: &mut List<Edit>) -> Result<(), NoMemory>
    ensures { OnOk result (made.new ≡ made.old ++ document_edits add document) }
{
    let classes = document.classes;
    let roles = document.roles;
    add_axioms(add, document.axioms, made)?;
    add_facts(add, document.facts.as_slice(), made)?;
    if add {
        add_classes(classes.as_slice(), made)?;
        add_properties(roles.as_slice(), made)?;
    }
    Ok(())
}

fn add_axioms(add: bool, axioms: List<Axiom>, made: &mut List<Edit>) -> Result<(), NoMemory>
    ensures { OnOk result (made.new ≡ made.old ++ map (λ stated. edit add (item.Axiom stated)) axioms) }
{
    for stated in axioms.into_vec() {
        made.push(Edit {
            add,
            item: Item::Axiom(stated),
        })?;
    }
    Ok(())
}

fn add_facts(add: bool, facts: &[Fact], made: &mut List<Edit>) -> Result<(), NoMemory>
    ensures { OnOk result (made.new ≡ made.old ++ fact_edits add facts.now) }
{
    for fact in facts {
        made.push(Edit {
            add,
            item: Item::Fact(*fact),
        })?;
    }
    Ok(())
}

fn add_classes(classes: &[u32], made: &mut List<Edit>) -> Result<(), NoMemory>
    ensures { OnOk result (made.new ≡ made.old ++ map (λ class. edit true (item.Class class)) classes.now) }
{
    for class in classes {
        made.push(Edit {
            add: true,
            item: Item::Class(*class),
        })?;
    }
    Ok(())
}

fn add_properties(properties: &[u32], made: &mut List<Edit>) -> Result<(), NoMemory>
    ensures { OnOk result (made.new ≡
        made.old ++ map (λ property. edit true (item.Property property)) properties.now) }
{
    for property in properties {
        made.push(Edit {
            add: true,
            item: Item::Property(*property),
        })?;
    }
    Ok(())
}
