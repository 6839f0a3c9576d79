ghost use Rattle.std.specs.Prelude.{◌≡◌, ◌↔◌, ◌∷◌, [], ℕ, List, slice_get, Some, None, IfNone, IfSome, IsTrue};
ghost use Rattle.ras_cli.specs.Words.{texts, Request, request_of, files_of, names_of, named_by, IsOption, NamesFiles, IsCommand, Asks, IsNoCommand};

/// What is to be done with which files.
#[derive(Clone, Copy, Debug, PartialEq, Eq)]
pub enum Task<'a> {
    /// The evidence of a bundle is judged.
    CheckBundle { bundle: &'a str },
    /// A specification is printed in its canonical text.
    Print { file: &'a str },
    /// An evidence is judged for the system of a specification.
    Check { file: &'a str, evidence: &'a str },
    /// The run of an evidence is written out, in the system of a specification.
    Replay { file: &'a str, evidence: &'a str },
}

/// Names of files: those before `--`, and those behind it.
#[derive(Clone, Copy)]
struct NamesInParts<'a> {
    front: &'a [String],
    back: &'a [String],
}

impl<'a> NamesInParts<'a> {
    /// The name of this number.
    fn get(&self, at: usize) -> Option<&'a str>
        ensures some { IfSome result (λ name. slice_get (names_of self.now) at ≡ Some name.now) }
        ensures none { IfNone result (slice_get (names_of self.now) at ≡ None) }
    {
        if at < self.front.len() {
            return Some(self.front[at].as_str());
        }
        let name = self.back.get(at - self.front.len())?;
        Some(name.as_str())
    }
}

/// Whether a word begins with `-` and is not `-` alone.
fn is_option(word: &str) -> bool
    ensures { IsTrue result ↔ IsOption word.now }
{
    let bytes = word.as_bytes();
    bytes.len() > 1 && bytes[0] == b'-'
}

/// The files that words name, where no word before `--` is an option.
fn names(words: &[String]) -> Option<NamesInParts<'_>>
    ensures some { IfSome result (λ names. NamesFiles (texts words.now) (names_of names)) }
    ensures none { IfNone result ((names : List (List ℕ)) → ¬ NamesFiles (texts words.now) names) }
{
    for at in 0..words.len() {
        let word = words[at].as_str();
        if word == "--" {
            return Some(NamesInParts {
                front: &words[..at],
                back: &words[at + 1..],
            });
        }
        if is_option(word) {
            return None;
        }
    }
    Some(NamesInParts {
        front: words,
        back: &[],
    })
}

/// One file, or two.
#[derive(Clone, Copy)]
enum OneOrTwo<'a> {
    One(&'a str),
    Two(&'a str, &'a str),
}

/// The one file or the two that words name.
fn files(words: &[String]) -> Option<OneOrTwo<'_>>
    ensures some { IfSome result (λ files. NamesFiles (texts words.now) (named_by files)) }
    ensures none { IfNone result ((request : Request) → ¬ NamesFiles (texts words.now) (files_of request)) }
{
    let names = names(words)?;
    let first = names.get(0)?;
    let Some(second) = names.get(1) else {
        return Some(OneOrTwo::One(first));
    };
    match names.get(2) {
        None => Some(OneOrTwo::Two(first, second)),
        Some(_) => None,
    }
}

/// The command of a word with one file.
fn of_one<'a>(command: &str, file: &'a str) -> Option<Task<'a>>
    ensures some { IfSome result (λ task. IsCommand command.now (file.now ∷ []) (request_of task)) }
    ensures none { IfNone result ((request : Request) → ¬ IsCommand command.now (file.now ∷ []) request) }
{
    match command {
        "check" => Some(Task::CheckBundle { bundle: file }),
        "print" => Some(Task::Print { file }),
        _ => None,
    }
}

/// The command of a word with two files.
fn of_two<'a>(command: &str, file: &'a str, evidence: &'a str) -> Option<Task<'a>>
    ensures some { IfSome result (λ task. IsCommand command.now (file.now ∷ evidence.now ∷ []) (request_of task)) }
    ensures none { IfNone result ((request : Request) → ¬ IsCommand command.now (file.now ∷ evidence.now ∷ []) request) }
{
    match command {
        "check" => Some(Task::Check { file, evidence }),
        "replay" => Some(Task::Replay { file, evidence }),
        _ => None,
    }
}

/// The command and the files that the words ask for: a name that stands behind `--` may begin with `-`, and another one
/// does so only where it is `-` alone.
pub fn asked(words: &[String]) -> Option<Task<'_>>
    ensures some { IfSome result (λ task. Asks (texts words.now) (request_of task)) }
    ensures none { IfNone result (IsNoCommand (texts words.now)) }
{
    let (command, behind) = words.split_first()?;
    match files(behind)? {
        OneOrTwo::One(file) => of_one(command.as_str(), file),
        OneOrTwo::Two(file, evidence) => of_two(command.as_str(), file, evidence),
    }
}
