//! The words after the program's name.

ghost use Rattle.std.specs.Prelude.{◌≡◌, map, string_bytes};
ghost use Rattle.sepref_top.specs.CommandWords.{command_of_word, line_of_words, plain};

/// What the program is asked to do.
#[derive(Clone, Copy)]
pub enum Command {
    /// To print a specification as it is spelled.
    Check,
    /// To print the program of a specification.
    Synth,
    /// To compute one allowed result of a specification.
    Eval,
    /// To run the program of a specification.
    Run,
    /// To run a program.
    Exec,
    /// To follow a schedule of a program.
    Replay,
    /// To look whether a program fits a specification by a derivation.
    Verify,
}

/// A command line: a command, with its number and its options.
#[derive(Clone, Copy)]
pub struct Line {
    /// What the program is asked to do.
    pub command: Command,
    /// The number behind the command, 0 where the command takes none.
    pub number: u64,
    /// How many words the heap of a run has.
    pub heap: u64,
    /// How many steps a path of a run may take.
    pub steps: u64,
    /// How many branches of a run may go on at once.
    pub workers: u32,
    /// How many turns a loop may take when a specification is evaluated.
    pub turns: u64,
    /// Whether the program that runs is printed before its results.
    pub listing: bool,
    /// Whether a derivation is printed behind a program.
    pub proof: bool,
}

/// The words of the heap where none are asked for: 128 MiB.
const HEAP: u64 = 16_777_216;

/// The steps where none are asked for.
const STEPS: u64 = 100_000_000;

/// The workers where none are asked for.
const WORKERS: u32 = 4;

/// The turns where none are asked for.
const TURNS: u64 = 1_000_000;

fn command_word(word: &str) -> Option<Command>
    ensures { result ≡ command_of_word word.now }
{
    if word == "check" {
        Some(Command::Check)
    } else if word == "synth" {
        Some(Command::Synth)
    } else if word == "eval" {
        Some(Command::Eval)
    } else if word == "run" {
        Some(Command::Run)
    } else if word == "exec" {
        Some(Command::Exec)
    } else if word == "replay" {
        Some(Command::Replay)
    } else if word == "verify" {
        Some(Command::Verify)
    } else {
        None
    }
}

/// A command with no number, and with what each option is where it is not asked for.
fn plain(command: Command) -> Line
    ensures { result ≡ plain command }
{
    Line {
        command,
        number: 0,
        heap: HEAP,
        steps: STEPS,
        workers: WORKERS,
        turns: TURNS,
        listing: false,
        proof: false,
    }
}

/// What a command line asks for. Today it is one word, a command's name, and its options are what they are where they are not asked
/// for: a heap of 16,777,216 words, 100,000,000 steps, 4 workers, 1,000,000 turns, no listing and no proof. `None` where the words
/// are no command line.
pub fn read_words(words: &[String]) -> Option<Line>
    ensures { result ≡ line_of_words (map string_bytes words.now) }
{
    let [word] = words else {
        return None;
    };
    match command_word(word.as_str()) {
        Some(command) => Some(plain(command)),
        None => None,
    }
}
