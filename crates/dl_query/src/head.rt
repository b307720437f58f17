// The head of a query text.
ghost use Rattle.std.specs.Prelude.{◌≡◌, ◌≢◌, List, [], length, IfOk, IfErr, OnOk, OnErr, MatchOption};
ghost use Rattle.dl_names.specs.NameList.{Text};
ghost use Rattle.dl_query.specs.Grammar.{met, nothing_met};
ghost use Rattle.dl_query.specs.Steps.{query_word, head_more, head_end};
ghost use Rattle.dl_query.specs.Parts.{Leads, Stops, AreNumbers, Adds, next_symbol, next_at, Passes};
ghost use Rattle.dl_query.specs.Symbols.{mark, variable};

use crate::QueryFault;
use crate::token::{Mark, Token};
use crate::tokens::Tokens;
use crate::variables::Variables;
use std::alloc::Global;

/// The numbers of the variables of the head, up to its `)`.
pub(crate) fn read_head<'a>(
    alloc: Global,
    tokens: &mut Tokens<'a>,
    variables: &mut Variables<'a>,
) -> Result<Vec<usize>, QueryFault>
    requires { variables.old ≡ [] }
    ensures ok { IfOk result (λ head. (names : List Text) →
        Leads query_word (nothing_met names) tokens.old
        head_end (met variables.new names head.items []) tokens.new) }
    ensures stops { IfErr result (λ fault. (names : List Text) →
        Stops query_word (nothing_met names) tokens.old fault names) }
    ensures numbers { IfOk result (λ head. AreNumbers head.items (length variables.new)) }
{
    tokens.expect(Mark::QueryWord)?;
    tokens.expect(Mark::Opening)?;
    let Some(name) = first_variable(tokens)? else {
        return Ok(Vec::new(alloc));
    };
    let mut head = Vec::new(alloc);
    add(&mut head, variables, name)?;
    read_further(head, tokens, variables)
}

/// The first variable of a head, or `None` where its `)` stands next.
fn first_variable<'a>(tokens: &mut Tokens<'a>) -> Result<Option<&'a [u8]>, QueryFault>
    ensures ok { IfOk result (λ found. MatchOption found (next_symbol tokens.old ≡ mark Mark.Closing)
        (λ name. next_symbol tokens.old ≡ variable name.now)) }
    ensures other { OnErr result ((next_symbol tokens.old ≢ mark Mark.Closing)
        × ((name : Text) → next_symbol tokens.old ≢ variable name)) }
    ensures fault { IfErr result (λ fault. fault ≡ QueryFault.Syntax (next_at tokens.old)) }
    ensures passes { Passes tokens.old tokens.new }
{
    let (token, at) = tokens.next();
    match token {
        Token::Mark(Mark::Closing) => Ok(None),
        Token::Variable(name) => Ok(Some(name)),
        _ => Err(QueryFault::Syntax { at }),
    }
}

/// The head with the variables behind these, each behind a comma, up to its `)`.
fn read_further<'a>(
    mut head: Vec<usize>,
    tokens: &mut Tokens<'a>,
    variables: &mut Variables<'a>,
) -> Result<Vec<usize>, QueryFault>
    requires { AreNumbers head.items (length variables.old) }
    ensures ok { IfOk result (λ all. (names : List Text) →
        Leads head_more (met variables.old names head.items []) tokens.old
        head_end (met variables.new names all.items []) tokens.new) }
    ensures stops { IfErr result (λ fault. (names : List Text) →
        Stops head_more (met variables.old names head.items []) tokens.old fault names) }
    ensures numbers { IfOk result (λ all. AreNumbers all.items (length variables.new)) }
{
    'more: while let Some(_) = tokens.comma_or(Mark::Closing)? {
        let name = read_variable(tokens)?;
        add(&mut head, variables, name)?;
    }
    Ok(head)
}

/// The variable that stands next.
fn read_variable<'a>(tokens: &mut Tokens<'a>) -> Result<&'a [u8], QueryFault>
    ensures ok { IfOk result (λ name. next_symbol tokens.old ≡ variable name.now) }
    ensures other { OnErr result ((name : Text) → next_symbol tokens.old ≢ variable name) }
    ensures fault { IfErr result (λ fault. fault ≡ QueryFault.Syntax (next_at tokens.old)) }
    ensures passes { Passes tokens.old tokens.new }
{
    let (token, at) = tokens.next();
    match token {
        Token::Variable(name) => Ok(name),
        _ => Err(QueryFault::Syntax { at }),
    }
}

/// Adds a variable to the head. Memory is all that may be wanting.
fn add<'a>(
    head: &mut Vec<usize>,
    variables: &mut Variables<'a>,
    name: &'a [u8],
) -> Result<(), QueryFault>
    requires { AreNumbers head.old.items (length variables.old) }
    ensures ok { OnOk result (Adds head.old.items variables.old name.now head.new.items variables.new) }
    ensures numbers { OnOk result (AreNumbers head.new.items (length variables.new)) }
    ensures err { IfErr result (λ fault. fault ≡ QueryFault.NoMemory) }
{
    let number = variables.number(name)?;
    head.push(number)?;
    Ok(())
}
