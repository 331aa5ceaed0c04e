// How long the tables and the long buffers of the shell and of the exporting program are, in words and bytes.
use table::word::{RESOURCE_WORDS, STATEMENT_WORDS};

// 8,192 resources, 16,384 statements, 512 KiB of text.
pub const RESOURCES: usize = 8192;

pub const STATEMENTS: usize = 16384;

pub const RESOURCE_TABLE: usize = RESOURCES * RESOURCE_WORDS;

pub const STATEMENT_TABLE: usize = STATEMENTS * STATEMENT_WORDS;

pub const TEXT: usize = 524288;

// The longest file that they write.
pub const FILE: usize = 4194304;

// What `docs/SHELL.md` and `docs/PROGRAMS.md` promise, in numbers of their own; the tables by 11 words a resource and 7 a statement.
const _: () = prove!(RESOURCES == 8192);

const _: () = prove!(STATEMENTS == 16384);

const _: () = prove!(RESOURCE_TABLE == 90112);

const _: () = prove!(STATEMENT_TABLE == 114688);

const _: () = prove!(TEXT == 524288);

const _: () = prove!(FILE == 4194304);
