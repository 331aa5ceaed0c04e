// Which command a line is.
ghost use Rattle.std.specs.Prelude.{◌≡◌};
ghost use Rattle.shell_line.specs.Commands.{words, bare_words, named, all_of, command_of};

use crate::part;

#[derive(Clone, Copy, PartialEq, Eq)]
pub enum Command {
    // Blank, or a comment.
    Nothing,
    Question,
    List,
    Names,
    Assert,
    Retract,
    Counts,
    Totals,
    Check,
    Reclaim,
    Save,
    Help,
    Quit,
    // A word that is no command.
    Unknown,
}

// The command; where its first byte stands; and where its rest begins, after the word and white. A question is all rest.
#[derive(Clone, Copy)]
pub struct CommandRead {
    pub command: Command,
    pub start: usize,
    pub rest: usize,
}

// The command that a word names. No match on the words: the definition is a row of tests too, and a test has one equation to prove it by
// where an arm has one for each byte.
fn named(word: &[u8]) -> Command
    ensures { result ≡ named word.now words }
{
    if part::same(word, b"list") {
        return Command::List;
    }
    if part::same(word, b"names") {
        return Command::Names;
    }
    if part::same(word, b"assert") {
        return Command::Assert;
    }
    if part::same(word, b"retract") {
        return Command::Retract;
    }
    if part::same(word, b"counts") {
        return Command::Counts;
    }
    bare(word)
}

// The command without a rest that a word names.
fn bare(word: &[u8]) -> Command
    ensures { result ≡ named word.now bare_words }
{
    if part::same(word, b"totals") {
        return Command::Totals;
    }
    if part::same(word, b"check") {
        return Command::Check;
    }
    if part::same(word, b"reclaim") {
        return Command::Reclaim;
    }
    if part::same(word, b"save") {
        return Command::Save;
    }
    if part::same(word, b"help") {
        return Command::Help;
    }
    if part::same(word, b"quit") {
        return Command::Quit;
    }
    Command::Unknown
}

// A line that is all of one command.
fn whole(command: Command, start: usize) -> CommandRead
    ensures { result ≡ all_of command start }
{
    CommandRead {
        command,
        start,
        rest: start,
    }
}

// The command of a line.
pub fn read_command(line: &[u8]) -> CommandRead
    ensures { result ≡ command_of line.now }
{
    let start = part::white_end(line, 0);
    if start >= line.len() {
        return whole(Command::Nothing, start);
    }
    match line[start] {
        b'#' => whole(Command::Nothing, start),
        b'<' | b'_' | b'"' | b'?' => whole(Command::Question, start),
        _ => {
            let end = part::word_end(line, start);
            CommandRead {
                command: named(part::bytes_of(line, start, end)),
                start,
                rest: part::white_end(line, end),
            }
        }
    }
}
