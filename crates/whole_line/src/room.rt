// Room for a line: for its names that the store does not have, each once, and, if there are any, for one statement more. A statement with a
// new name is not in the store; where no name is new, entering them changes nothing.
ghost use Rattle.std.specs.Prelude.{◌≡◌, true, cond, [], ◌∷◌, ◌+◌, ◌≤◌, length};
ghost use Rattle.term.specs.Grammar.{name_limit};
ghost use Rattle.store.specs.Shared.{max_resources, max_text};
ghost use Rattle.table.specs.Lent.{held};
ghost use Rattle.store.specs.Names.{storable};
ghost use Rattle.store.specs.Dictionary.{one_name_more};
ghost use Rattle.ntriples.specs.Reader.{read_of};
ghost use Rattle.whole_line.specs.Room.{three_names, Storable, NewAnswer, NamesAnswer, RoomAnswer, LineAnswer};

use ntriples::Line;
use shell_line::part::same;
use store::{Counters, Lookup};
use table::lent::Tables;

// Whether the store does not have a name. An arm for each answer, since each has its law; `matches!` leaves two in one.
fn is_new(c: Counters, tables: Tables, name: &[u8]) -> bool
    requires { storable name.now ≡ true }
    ensures { NewAnswer c (held tables.entry) []
        name.now result }
{
    match dictionary::find(c, tables, name) {
        Ok(Lookup::Absent(_)) => true,
        Ok(Lookup::Number(_, _)) => false,
        Err(_) => false,
    }
}

// Whether a name is new after another. The tests differ in how many names stand before: a list of names would be as long.
fn is_new_after(c: Counters, tables: Tables, first: &[u8], name: &[u8]) -> bool
    requires { storable name.now ≡ true }
    ensures { NewAnswer c (held tables.entry)
        (first.now ∷ []) name.now result }
{
    if same(first, name) {
        return false;
    }
    is_new(c, tables, name)
}

// Whether a name is new after two others.
fn is_new_after_two(c: Counters, tables: Tables, first: &[u8], second: &[u8], name: &[u8]) -> bool
    requires { storable name.now ≡ true }
    ensures { NewAnswer c (held tables.entry)
        (second.now ∷ first.now ∷ []) name.now result }
{
    if same(second, name) {
        return false;
    }
    is_new_after(c, tables, first, name)
}

// The counters with one name more, if it is new, counted past the limits too.
fn with_name(c: Counters, name: &[u8], new: bool) -> Counters
    requires { (length name.now ≤ name_limit) × (c.resources ≤ max_resources + 2) × (c.text ≤ max_text + 512) }
    ensures { result ≡ cond new (one_name_more c name.now) c }
{
    if !new {
        return c;
    }
    let mut d = c;
    d.resources = c.resources + 1;
    d.text = c.text + name.len() as u32 + 1;
    d
}

// The counters with the three names of a statement.
fn with_names(
    c: Counters,
    tables: Tables,
    subject: &[u8],
    predicate: &[u8],
    object: &[u8],
) -> Counters
    requires { Storable subject.now predicate.now object.now × (c.resources ≤ max_resources) × (c.text ≤ max_text) }
    ensures { NamesAnswer c (held tables.entry)
        (three_names subject.now predicate.now object.now) result }
{
    let s = is_new(c, tables, subject);
    let p = is_new_after(c, tables, subject, predicate);
    let o = is_new_after_two(c, tables, subject, predicate, object);
    let one = with_name(c, subject, s);
    let two = with_name(one, predicate, p);
    with_name(two, object, o)
}

// Whether there is room for a statement of three names.
fn for_names(c: Counters, tables: Tables, subject: &[u8], predicate: &[u8], object: &[u8]) -> bool
    requires { Storable subject.now predicate.now object.now }
    ensures { RoomAnswer c (held tables.entry)
        (three_names subject.now predicate.now object.now) result }
{
    if !table::fits(c, tables) {
        return true;
    }
    let mut d = with_names(c, tables, subject, predicate, object);
    if d.resources == c.resources {
        return true;
    }
    d.statements = c.statements + 1;
    table::fits(d, tables)
}

// Whether there is room for what was read of the first line of the source. Where a line has no statement, or a counter is over its
// capacity, nothing will be written, and no room is asked for.
pub fn for_line(c: Counters, tables: Tables, source: &[u8], line: Line) -> bool
    requires { line ≡ (read_of name_limit source.now 0).line }
    ensures { LineAnswer c (held tables.entry)
        source.now line result }
{
    match line {
        Line::Triple(s, p, o) => {
            let a = s.start;
            let b = s.end;
            let d = p.start;
            let e = p.end;
            let f = o.start;
            let g = o.end;
            for_names(c, tables, &source[a..b], &source[d..e], &source[f..g])
        }
        Line::Refused(_) => true,
        Line::End => true,
        Line::Nothing => true,
    }
}
