// The four lent tables: capacities, the words of their records, and the two operations that only read them.
//
// | table      | record | words                                                                                               |
// |------------|--------|-----------------------------------------------------------------------------------------------------|
// | resources  | 11     | first statement as subject, predicate, object; count as each; text offset; kind; live count as each |
// | statements | 7      | subject, predicate, object; next statement for each; flag, 1 if retracted                           |
// | index      | 1      | a resource's number, in rising byte order of name                                                   |
// | text       | bytes  | names in resource order, each closed by a zero byte                                                 |
//
// Records are numbered from 1. A record's words are read and written through `word`, for a position in general.
#![tactic(auto)]

ghost use Rattle.std.specs.Prelude.{◌≡◌};
ghost use Rattle.store.specs.Shared.{known};
ghost use Rattle.store.specs.Tables.{fits};
ghost use Rattle.table.specs.Lent.{held};
ghost use Rattle.store.specs.Reading.{in_range, statement_of, name_span_of};

use crate::lent::Tables;
use store::{Counters, NameSpan, Refusal, ResourceId, StatementId, StatementRead, Triple};

pub mod lent;
pub mod triple;
pub mod word;

// Whether no counter exceeds its capacity, nor the reclaims so far their maximum. Every operation of the store
// refuses 1 where this is false.
#[tactic(auto, unfolding(store::specs::Tables::fits))]
pub fn fits(c: Counters, tables: Tables) -> bool
    ensures { result ≡ fits c (held tables.entry) }
{
    let r = c.resources as usize;
    let t = c.statements as usize;
    let b = c.text as usize;
    c.resources <= Counters::MAX_RESOURCES
        && word::RESOURCE_WORDS * r <= tables.resources.len()
        && r <= tables.index.len()
        && c.statements <= Counters::MAX_STATEMENTS
        && word::STATEMENT_WORDS * t <= tables.statements.len()
        && c.text <= Counters::MAX_TEXT
        && b <= tables.text.len()
        && c.generation <= Counters::MAX_RECLAIMS
}

// Whether a word is one of the numbers 1 to n.
#[tactic(auto, unfolding(store::specs::Reading::in_range))]
pub fn in_range(n: u32, word: u32) -> bool
    ensures { result ≡ in_range n word }
{
    0 < word && word <= n
}

// Whether all three numbers are in 1 to n.
#[tactic(auto, unfolding(store::specs::Shared::known, store::specs::Reading::in_range))]
pub fn known(n: u32, x: Triple) -> bool
    ensures { result ≡ known n x }
{
    in_range(n, x.subject.0) && in_range(n, x.predicate.0) && in_range(n, x.object.0)
}

// Read a statement. Refusals: 1; 4 if the number is 0 or above T; 9 if a resource is outside 1..R or the flag exceeds
// 1.
pub fn read_statement(c: Counters, tables: Tables, n: StatementId) -> Result<StatementRead, Refusal>
    ensures { result ≡ statement_of c (held tables.entry) n }
{
    if !fits(c, tables) {
        return Err(Refusal::Capacity);
    }
    if !in_range(c.statements, n.0) {
        return Err(Refusal::UnknownNumber);
    }
    let spo = word::triple_at(tables.statements, n);
    if !known(c.resources, spo) {
        return Err(Refusal::Damaged);
    }
    let flag = word::flag_at(tables.statements, n);
    if flag > 1 {
        return Err(Refusal::Damaged);
    }
    Ok(StatementRead { triple: spo, flag })
}

// Name of a number: where its bytes are in the text, the zero byte not included. Refusals: 1; 4 if the number is 0 or
// above R; 9 if the offset is at or past B, or no zero byte follows within 256 bytes and before B.
pub fn name_span(c: Counters, tables: Tables, n: ResourceId) -> Result<NameSpan, Refusal>
    ensures { result ≡ name_span_of c (held tables.entry) n }
{
    if !fits(c, tables) {
        return Err(Refusal::Capacity);
    }
    if !in_range(c.resources, n.0) {
        return Err(Refusal::UnknownNumber);
    }
    let from = word::offset_at(tables.resources, n);
    word::span_at(tables.text, c.text, from)
}
