// Query texts.
ghost use Rattle.std.specs.Prelude.{◌≡◌, ◌≢◌, ◌<◌, ◌≤◌, ℕ, length, not, false, position, slice_index_or, vec_len, All, IfOk, IfErr};
ghost use Rattle.dl_names.specs.NameList.{Extends};
ghost use Rattle.dl_terms.specs.Queries.{IsWellFormed};
ghost use Rattle.dl_terms.specs.Occurring.{query_names};
ghost use Rattle.dl_query.specs.Grammar.{Met, query_of};
ghost use Rattle.dl_query.specs.Queries.{IsValue, HasFault, QueryHasFault};
ghost use Rattle.dl_query.specs.Parts.{AreNumbers, Judges};

use crate::QueryFault;
use crate::body::{Body, read_body};
use crate::head::read_head;
use crate::token::Mark;
use crate::tokens::Tokens;
use crate::variables::Variables;
use dl_names::NameSet;
use dl_terms::{List, NoMemory, Query};
use std::alloc::Global;

/// Reads a query text. Its names get their places in `names`, and its variables their numbers in the order in which
/// they first occur, the head first. The fault is the first one of the text: at the first token at which reading can't
/// go on, then `Unsafe`, then `TooLarge`. `NoMemory` may come at any time. After a fault `names` has the names that
/// were read before it. The grammar is this project's own.
pub fn read_query(alloc: Global, bytes: &[u8], names: &mut NameSet) -> Result<Query, QueryFault>
    ensures ok { IfOk result (λ query. IsValue bytes.now names.old query names.new) }
    ensures places { IfOk result (λ query. All (λ place. place < length names.new) (query_names query)) }
    ensures fault { IfErr result (λ fault. fault ≢ QueryFault.NoMemory →
        HasFault bytes.now names.old fault names.new) }
    ensures grows { Extends names.old names.new }
{
    let mut tokens = Tokens::new(bytes);
    let mut variables = Variables::new(alloc);
    let head = read_head(alloc, &mut tokens, &mut variables)?;
    let heads = variables.len();
    tokens.expect(Mark::Turnstile)?;
    let body = read_body(alloc, &mut tokens, &mut variables, names)?;
    judged(alloc, &head, body, heads, variables.len())
}

/// The query with this head and body, if its head is in its body and its parts are not too many. `heads` variables of
/// the `variables` are in the head.
fn judged(
    alloc: Global,
    head: &[usize],
    body: Body,
    heads: usize,
    variables: usize,
) -> Result<Query, QueryFault>
    requires numbers { AreNumbers head.now heads }
    requires marks { vec_len body.bound ≡ heads }
    requires more { heads ≤ variables }
    ensures ok { IfOk result (λ query. (m : Met) → Judges m head.now body heads variables →
        (query ≡ query_of m) × IsWellFormed query) }
    ensures fault { IfErr result (λ fault. fault ≢ QueryFault.NoMemory →
        (m : Met) → Judges m head.now body heads variables → QueryHasFault (query_of m) fault) }
{
    if let Some(index) = first_unbound(head, &body.bound) {
        return Err(QueryFault::Unsafe {
            place: index as u64 + 1,
        });
    }
    let existential = variables - heads;
    if body.count > 16 || existential > 8 || head.len() > 16 {
        return Err(QueryFault::TooLarge {
            atoms: body.count,
            existential: existential as u64,
            head: head.len() as u64,
        });
    }
    let head = narrowed(alloc, head)?;
    Ok(Query {
        head,
        atoms: body.kept,
        vars: variables as u8,
    })
}

/// The index of the first variable of the head that isn't marked.
fn first_unbound(head: &[usize], bound: &[bool]) -> Option<usize>
    requires { All (λ v. v < length bound.now) head.now }
    ensures { result ≡ position (λ v. not (slice_index_or bound.now v false)) head.now }
{
    head.iter().position(|number| !bound[*number])
}

/// The numbers of the head, all below 256.
fn narrowed(alloc: Global, head: &[usize]) -> Result<List<u8>, NoMemory>
    requires { All (λ v. v < 256) head.now }
    ensures { IfOk result (λ list. list ≡ head.now) }
{
    let mut list = List::new(alloc);
    for number in head {
        list.push(*number as u8)?;
    }
    Ok(list)
}
