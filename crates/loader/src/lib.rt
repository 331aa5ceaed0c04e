// Loading N-Triples (paper 01, "Loading program"): lines out of blocks of any length, in fixed memory, and each line into the store.
//
// The input comes in blocks into a lent buffer. One reader is carried over the whole lines in it; the bytes of the line that has not
// ended are moved to its front, and the next block is read behind them. Every line is numbered. A statement line is answered by one
// line of output, `NUMBER new|already N` or `NUMBER refused N`; a blank or comment line by none; a quiet load writes none. Standard error
// tells where and why a line was refused. Names are entered once the whole line is read, subject first; those entered before a refusal
// remain.
//
// `line` loads a line, `load` every line of a source, `block` what fills the buffer, `file` what a file or standard input has; `output`
// writes, `told` tells of a line; `buffer` has the lengths of the tables and of the long buffers of the shell and of the exporting program.
#![tactic(auto)]

pub mod block;
pub mod buffer;
pub mod file;
pub mod line;
pub mod load;
pub mod output;
pub mod told;

// The bytes of a line that has not ended, and room for a block.
pub const BUFFER: usize = 8192;

// The loading program's tables: 512 resources, 1,024 statements, 16 KiB of text.
pub const RESOURCE_TABLE: usize = 512 * table::word::RESOURCE_WORDS;

pub const STATEMENT_TABLE: usize = 1024 * table::word::STATEMENT_WORDS;

pub const INDEX_TABLE: usize = 512;

pub const TEXT_TABLE: usize = 16384;
