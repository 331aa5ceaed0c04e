// The store for C, as the archive `liblemontiller.a`: each function of crate `lemontiller` under its own name, with its clauses and nothing more,
// since a crate is a library or a static library and not both. `include/lemontiller.h` declares what is exported.
#![tactic(auto)]

ghost use Rattle.std.specs.Prelude.{◌≡◌};
ghost use Rattle.capi_calls.specs.Calls.{kind_call, CheckCall, FindCall, name_call, statement_call, line_call, retract_call, open_call, next_call, assert_call, EnterCall, export_call, PrefixCall, ReclaimCall};
ghost use Rattle.capi_calls.specs.QueryCalls.{query_open_call, query_next_call};
ghost use Rattle.capi_calls.specs.Words.{done, beside, wrote, changed, filed};
ghost use Rattle.store.specs.Shared.{triple};
ghost use Rattle.store.specs.Tables.{lent, tables};

// The version of the library as a number, major * 1,000,000 + minor * 1,000 + patch: 0.2.0.
#[unsafe(no_mangle)]
pub extern "C" fn lt_version() -> u32
    ensures { result ≡ 2000 }
{
    lemontiller::lt_version()
}

// The kind of a name: 1 an IRI, 2 a blank node, 3 a literal; refusal 2 where it is malformed.
#[unsafe(no_mangle)]
pub extern "C" fn lt_name_kind(name: &[u8], reply: &mut [u32]) -> u32
    ensures { done result reply.new ≡ kind_call name.now reply.old }
{
    lemontiller::lt_name_kind(name, reply)
}

// Whether the store is sound: 1 or 0.
#[unsafe(no_mangle)]
pub extern "C" fn lt_check(
    counters: &[u32],
    resources: &[u32],
    statements: &[u32],
    index: &[u32],
    text: &[u8],
    reply: &mut [u32],
) -> u32
    ensures { CheckCall counters.now (lent resources.entry statements.entry index.entry text.entry)
        reply.old (done result reply.new) }
{
    lemontiller::lt_check(counters, resources, statements, index, text, reply)
}

// Find a name: its number, or 0; and the position in the index, from 0, where it stands or would stand.
#[unsafe(no_mangle)]
pub extern "C" fn lt_find(
    counters: &[u32],
    resources: &[u32],
    statements: &[u32],
    index: &[u32],
    text: &[u8],
    name: &[u8],
    reply: &mut [u32],
) -> u32
    ensures { FindCall counters.now (lent resources.entry statements.entry index.entry text.entry)
        name.now reply.old (done result reply.new) }
{
    lemontiller::lt_find(counters, resources, statements, index, text, name, reply)
}

// Name of a number: where its bytes start in the text, and how many they are.
#[unsafe(no_mangle)]
pub extern "C" fn lt_name(
    counters: &[u32],
    resources: &[u32],
    statements: &[u32],
    index: &[u32],
    text: &[u8],
    number: u32,
    reply: &mut [u32],
) -> u32
    ensures { done result reply.new ≡ name_call counters.now
        (lent resources.entry statements.entry index.entry text.entry) number reply.old }
{
    lemontiller::lt_name(counters, resources, statements, index, text, number, reply)
}

// Read a statement: subject, predicate, object, and 1 if it is retracted, else 0.
#[unsafe(no_mangle)]
pub extern "C" fn lt_statement(
    counters: &[u32],
    resources: &[u32],
    statements: &[u32],
    index: &[u32],
    text: &[u8],
    number: u32,
    reply: &mut [u32],
) -> u32
    ensures { done result reply.new ≡ statement_call counters.now
        (lent resources.entry statements.entry index.entry text.entry) number reply.old }
{
    lemontiller::lt_statement(counters, resources, statements, index, text, number, reply)
}

// Reads the line at the position `at` of a text. Refusal 10: its offset in the line stands after the position.
#[unsafe(no_mangle)]
pub extern "C" fn lt_read_line(text: &[u8], at: usize, reply: &mut [u64]) -> u32
    ensures { done result reply.new ≡ line_call text.now at reply.old }
{
    lemontiller::lt_read_line(text, at, reply)
}

// Retract: the number of the statement that was live until now, or 0.
#[unsafe(no_mangle)]
pub extern "C" fn lt_retract(
    counters: &[u32],
    resources: &mut [u32],
    statements: &mut [u32],
    index: &[u32],
    text: &[u8],
    subject: u32,
    predicate: u32,
    object: u32,
    reply: &mut [u32],
) -> u32
    ensures { wrote result (tables resources.new statements.new index.now text.now) reply.new
        ≡ retract_call counters.now (tables resources.old statements.old index.now text.now)
        (triple subject predicate object) reply.old }
{
    lemontiller::lt_retract(
        counters, resources, statements, index, text, subject, predicate, object, reply,
    )
}

// Open a pattern scan, 0 for any: the cursor, which stays as it was beside a refusal.
#[unsafe(no_mangle)]
pub extern "C" fn lt_scan_open(
    counters: &[u32],
    resources: &[u32],
    statements: &[u32],
    index: &[u32],
    text: &[u8],
    subject: u32,
    predicate: u32,
    object: u32,
    cursor: &mut [u32],
) -> u32
    ensures { done result cursor.new ≡ open_call counters.now
        (lent resources.entry statements.entry index.entry text.entry) (triple subject predicate object)
        cursor.old }
{
    lemontiller::lt_scan_open(
        counters, resources, statements, index, text, subject, predicate, object, cursor,
    )
}

// Next of a pattern scan: status (1 found, 2 ended, 3 spent), statement or 0, visits; the cursor moves on.
#[unsafe(no_mangle)]
pub extern "C" fn lt_scan_next(
    counters: &[u32],
    resources: &[u32],
    statements: &[u32],
    index: &[u32],
    text: &[u8],
    cursor: &mut [u32],
    budget: u32,
    reply: &mut [u32],
) -> u32
    ensures { beside result cursor.new reply.new
        ≡ next_call counters.now (lent resources.entry statements.entry index.entry text.entry)
        cursor.old budget reply.old }
{
    lemontiller::lt_scan_next(
        counters, resources, statements, index, text, cursor, budget, reply,
    )
}

// Assert: status (1 new, 2 already, 3 revived) and the statement's number; counters and tables as answered.
#[unsafe(no_mangle)]
pub extern "C" fn lt_assert(
    counters: &mut [u32],
    resources: &mut [u32],
    statements: &mut [u32],
    index: &[u32],
    text: &[u8],
    subject: u32,
    predicate: u32,
    object: u32,
    reply: &mut [u32],
) -> u32
    ensures { changed result counters.new (tables resources.new statements.new index.now text.now)
        reply.new
        ≡ assert_call counters.old (tables resources.old statements.old index.now text.now)
        (triple subject predicate object) reply.old }
{
    lemontiller::lt_assert(
        counters, resources, statements, index, text, subject, predicate, object, reply,
    )
}

// Enter a name: its number, old or new; counters and tables as answered.
#[unsafe(no_mangle)]
pub extern "C" fn lt_enter(
    counters: &mut [u32],
    resources: &mut [u32],
    statements: &[u32],
    index: &mut [u32],
    text: &mut [u8],
    name: &[u8],
    reply: &mut [u32],
) -> u32
    ensures { EnterCall counters.old (tables resources.old statements.now index.old text.old)
        (tables resources.new statements.now index.new text.new) name.now reply.old
        (beside result counters.new reply.new) }
{
    lemontiller::lt_enter(counters, resources, statements, index, text, name, reply)
}

// Write the file: the reply has its length in bytes; the first T working words are 0 afterwards.
#[unsafe(no_mangle)]
pub extern "C" fn lt_export(
    counters: &[u32],
    resources: &[u32],
    statements: &[u32],
    index: &[u32],
    text: &[u8],
    out: &mut [u8],
    work: &mut [u32],
    reply: &mut [u32],
) -> u32
    ensures { filed result out.new work.new reply.new
        ≡ export_call counters.now (lent resources.entry statements.entry index.entry text.entry)
        out.old work.old reply.old }
{
    lemontiller::export::lt_export(
        counters, resources, statements, index, text, out, work, reply,
    )
}

// List the names with a prefix: their numbers in byte order of name, as many as fit; the reply has the total.
#[unsafe(no_mangle)]
pub extern "C" fn lt_names_with_prefix(
    counters: &[u32],
    resources: &[u32],
    statements: &[u32],
    index: &[u32],
    text: &[u8],
    prefix: &[u8],
    numbers: &mut [u32],
    reply: &mut [u32],
) -> u32
    ensures { PrefixCall counters.now (lent resources.entry statements.entry index.entry text.entry)
        prefix.now numbers.old numbers.new reply.old (done result reply.new) }
{
    lemontiller::names::lt_names_with_prefix(
        counters, resources, statements, index, text, prefix, numbers, reply,
    )
}

// Open a query: the cursor at the start, with the number of reclaims, which stays as it was beside a refusal (1, 8).
#[unsafe(no_mangle)]
pub extern "C" fn lt_query_open(
    counters: &[u32],
    resources: &[u32],
    statements: &[u32],
    index: &[u32],
    text: &[u8],
    words: &[u32],
    cursor: &mut [u32],
) -> u32
    ensures { done result cursor.new ≡ query_open_call counters.now
        (lent resources.entry statements.entry index.entry text.entry) words.now cursor.old }
{
    lemontiller::queries::lt_query_open(counters, resources, statements, index, text, words, cursor)
}

// Next of a query: status, visits, the number of each variable; the cursor moves on, and stays as it was beside a
// refusal (1, 8, 13, 6, 7, 9).
#[unsafe(no_mangle)]
pub extern "C" fn lt_query_next(
    counters: &[u32],
    resources: &[u32],
    statements: &[u32],
    index: &[u32],
    text: &[u8],
    words: &[u32],
    cursor: &mut [u32],
    budget: u32,
    reply: &mut [u32],
) -> u32
    ensures { beside result cursor.new reply.new
        ≡ query_next_call counters.now (lent resources.entry statements.entry index.entry text.entry)
        words.now cursor.old budget reply.old }
{
    lemontiller::queries::lt_query_next(
        counters, resources, statements, index, text, words, cursor, budget, reply,
    )
}

// Reclaim: counters and tables as answered, all as they were beside a refusal (1, 14, 9). There is no reply: the
// counters tell all.
#[unsafe(no_mangle)]
pub extern "C" fn lt_reclaim(
    counters: &mut [u32],
    resources: &mut [u32],
    statements: &mut [u32],
    index: &[u32],
    text: &[u8],
) -> u32
    ensures { ReclaimCall counters.old (tables resources.old statements.old index.now text.now)
        (tables resources.new statements.new index.now text.now) (done result counters.new) }
{
    lemontiller::reclaim::lt_reclaim(counters, resources, statements, index, text)
}
