// The order of two statements' lines in the file (02, note 1), without writing them: two readings of the tables, byte by byte, up to the
// first bytes that differ. It is the order of whole lines, so that it is right on names with any bytes.
//
// Resources with one number have one name, and what two names have in common is passed over in one go; on a sound store the next byte
// then decides. Each function asks that the names are closed by zero bytes; the export sees to it. The tables are slices: no index is
// read, and four tables would ask callers for one.
#![tactic(auto)]

ghost use Rattle.std.specs.Prelude.{◌≡◌};
ghost use Rattle.store.specs.Tables.{offset_at};
ghost use Rattle.store.specs.Names.{compare_bytes};
ghost use Rattle.table.specs.Held.{ResourceHeld, TripleHeld};
ghost use Rattle.lines.specs.Export.{not_more};
ghost use Rattle.line_order.specs.declared.Head.TheVariants.{Name};
ghost use Rattle.line_order.specs.Rests.{line_in, Closed, TripleNamed, Printable, rest_of, HeadClosed, head_at};
ghost use Rattle.line_order.specs.Heads.{ByteAt, head_after, OneOn, Common};

use store::{Position, ResourceId, StatementId, Triple};

// Where the reading of a line stands: in the name at a position, at an offset of the text; at the dot; at LF; at the end.
#[derive(Clone, Copy)]
pub enum Head {
    Name(Position, usize),
    Dot,
    Feed,
    End,
}

// The byte at a head. The zero byte that closes a name reads as the blank after it, the end as 0.
fn byte_at(text: &[u8], h: Head) -> u8
    requires { HeadClosed text.now h }
    ensures { ByteAt text.now h result }
{
    match h {
        Head::Name(_, o) => {
            let b = text[o];
            if b == 0 {
                return 32;
            }
            b
        }
        Head::Dot => 46,
        Head::Feed => 10,
        Head::End => 0,
    }
}

// The name of resource y, from its first byte on.
fn name_at(resources: &[u32], p: Position, y: ResourceId) -> Head
    requires { ResourceHeld resources.now y.0 }
    ensures { result ≡ Name p (offset_at resources.now y.0) }
{
    Head::Name(p, table::word::offset_at(resources, y) as usize)
}

// The head after the blank that follows the name at a position.
fn after_name(resources: &[u32], x: Triple, p: Position) -> Head
    requires { TripleHeld resources.now x }
    ensures { result ≡ head_after resources.now x p }
{
    match p {
        Position::Subject => name_at(resources, Position::Predicate, x.predicate),
        Position::Predicate => name_at(resources, Position::Object, x.object),
        Position::Object => Head::Dot,
    }
}

// One byte on.
fn step(resources: &[u32], text: &[u8], x: Triple, h: Head) -> Head
    requires triple_named { TripleNamed resources.now text.now x }
    requires head_closed { HeadClosed text.now h }
    ensures { OneOn resources.now text.now x h result }
{
    match h {
        Head::Name(p, o) => {
            if text[o] == 0 {
                return after_name(resources, x, p);
            }
            Head::Name(p, o + 1)
        }
        Head::Dot => Head::Feed,
        Head::Feed => Head::End,
        Head::End => Head::End,
    }
}

// Whether what is left of the line of x is not more than what is left of that of y.
fn rest_not_more(resources: &[u32], text: &[u8], x: Triple, a: Head, y: Triple, b: Head) -> bool
    requires triple_named { TripleNamed resources.now text.now x × HeadClosed text.now a }
    requires triple_named_2 { TripleNamed resources.now text.now y × HeadClosed text.now b }
    ensures { result ≡ not_more (compare_bytes
        (rest_of resources.now text.now x a)
        (rest_of resources.now text.now y b)) }
{
    let mut p = a;
    let mut q = b;
    // A loop: two readings step by step, each from name to name and to the dot and LF, and no iterator has these steps.
    // The bytes passed are the same.
    loop {
        let u = byte_at(text, p);
        let v = byte_at(text, q);
        if u < v {
            return true;
        }
        if u > v {
            return false;
        }
        if u == 0 {
            return true;
        }
        p = step(resources, text, x, p);
        q = step(resources, text, y, q);
    }
}

// How many bytes two names have in common, from i and from j on.
fn alike(text: &[u8], i: usize, j: usize) -> usize
    requires { Closed text.now i × Closed text.now j }
    ensures { Common text.now i j result }
{
    let mut k = 0;
    // A loop: it ends at a zero byte, which is no end of a range, and neither slice's end is tested at a byte.
    // The first k bytes are the same, and none is 0.
    loop {
        let u = text[i + k];
        if u == 0 {
            return k;
        }
        if u != text[j + k] {
            return k;
        }
        k += 1;
    }
}

// Whether the line of x is not more than that of y from the name at a position on.
fn name_not_more(resources: &[u32], text: &[u8], x: Triple, y: Triple, p: Position) -> bool
    requires triple_named { TripleNamed resources.now text.now x }
    requires triple_named_2 { TripleNamed resources.now text.now y }
    ensures { result ≡ not_more (compare_bytes
        (rest_of resources.now text.now x (head_at resources.now x p))
        (rest_of resources.now text.now y (head_at resources.now y p))) }
{
    let i = table::word::offset_at(resources, table::triple::at(p, x)) as usize;
    let j = table::word::offset_at(resources, table::triple::at(p, y)) as usize;
    let k = alike(text, i, j);
    rest_not_more(
        resources,
        text,
        x,
        Head::Name(p, i + k),
        y,
        Head::Name(p, j + k),
    )
}

// Whether the line of statement a is not more than that of statement b.
pub fn not_more(
    resources: &[u32],
    statements: &[u32],
    text: &[u8],
    a: StatementId,
    b: StatementId,
) -> bool
    requires printable { Printable resources.now statements.now text.now a.0 }
    requires printable_2 { Printable resources.now statements.now text.now b.0 }
    ensures { result ≡ not_more (compare_bytes
        (line_in resources.now statements.now text.now a.0)
        (line_in resources.now statements.now text.now b.0)) }
{
    let x = table::word::triple_at(statements, a);
    let y = table::word::triple_at(statements, b);
    if x.subject != y.subject {
        return name_not_more(resources, text, x, y, Position::Subject);
    }
    if x.predicate != y.predicate {
        return name_not_more(resources, text, x, y, Position::Predicate);
    }
    if x.object != y.object {
        return name_not_more(resources, text, x, y, Position::Object);
    }
    true
}
