// What a query's variables are bound to, and a triple against a pattern (paper 01, "Next of a question").
ghost use Rattle.std.specs.Prelude.{◌≡◌};
ghost use Rattle.graph.specs.Query.{bind_word, match};
ghost use Rattle.graph.specs.Words.{unbound, value_of, under};
ghost use Rattle.pattern.specs.Matching.{PatternOk, WordFits, bound_if, solved};

use graph::{FIRST_VARIABLE, QueryPattern, Solution, VARIABLES};
use store::{ResourceId, Triple};

// Nothing is bound.
pub fn none_bound() -> Solution
    ensures { result.values ≡ unbound }
{
    let zero = ResourceId(0);
    Solution {
        values: [zero; VARIABLES],
    }
}

// The number that a word stands for, or 0 where it is an open variable.
pub fn value_of(bound: Solution, w: u32) -> ResourceId
    requires { WordFits w }
    ensures { result.0 ≡ value_of bound.values w }
{
    if w < FIRST_VARIABLE {
        return ResourceId(w);
    }
    let v = (w - FIRST_VARIABLE) as usize;
    let y = bound.values[v];
    y
}

// A pattern as a scan's: 0 where a variable is open.
pub fn under(bound: Solution, x: QueryPattern) -> Triple
    requires { PatternOk x }
    ensures { result ≡ under bound.values x }
{
    Triple {
        subject: value_of(bound, x.subject),
        predicate: value_of(bound, x.predicate),
        object: value_of(bound, x.object),
    }
}

// Whether a pattern's word meets a resource: an open variable takes it, anything else must be it.
fn bind_word(w: u32, n: ResourceId, bound: &mut Solution) -> bool
    requires { WordFits w }
    ensures { bound_if result bound.new.values ≡ bind_word w n.0 bound.old.values }
{
    if w < FIRST_VARIABLE {
        return w == n.0;
    }
    let v = (w - FIRST_VARIABLE) as usize;
    let y = bound.values[v];
    if y.0 == 0 {
        let taken = n;
        bound.values[v] = taken;
        return true;
    }
    y.0 == n.0
}

// What is bound from now on where a triple meets a pattern, subject, predicate, object in turn. One copy of what is bound
// is written in place. Inlined, since a query meets here each record that it visits.
#[inline]
pub fn meet(x: QueryPattern, t: Triple, bound: Solution) -> Option<Solution>
    requires { PatternOk x }
    ensures { result ≡ solved (match x t bound.values) }
{
    let mut b = bound;
    if !bind_word(x.subject, t.subject, &mut b) {
        return None;
    }
    if !bind_word(x.predicate, t.predicate, &mut b) {
        return None;
    }
    if !bind_word(x.object, t.object, &mut b) {
        return None;
    }
    Some(b)
}
