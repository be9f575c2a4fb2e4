//! The words of the command line.

ghost use Rattle.std.specs.Prelude.{◌≡◌, ◌∷◌, [], ℕ, map, IfSome, IsNone, string_bytes};
ghost use Rattle.stabby_intern.specs.Commands.{IsNumber};
ghost use Rattle.word_index.specs.Commands.{name_of, IsCommand, IsNoCommand};

/// What a run writes of each word.
#[derive(Clone, Copy, Debug, PartialEq, Eq)]
pub enum Task {
    /// How often it stands in the input.
    Words,
    /// Where it stands.
    Spans,
}

/// A task, and the number of workers that intern the words.
#[derive(Clone, Copy, Debug, PartialEq, Eq)]
pub struct Command {
    pub task: Task,
    pub workers: usize,
}

/// The command that the words are.
pub fn parse_command(words: &[String]) -> Option<Command>
    ensures some { IfSome result (λ command. IsCommand (map string_bytes words.now) command.task command.workers) }
    ensures none { IsNone result → IsNoCommand (map string_bytes words.now) }
{
    match words {
        [name, workers] => parse_pair(name.as_str(), workers.as_str()),
        _ => None,
    }
}

// A task's name, and a number of workers from 1 to 64.
fn parse_pair(name: &str, workers: &str) -> Option<Command>
    ensures some { IfSome result (λ command. IsCommand (name.now ∷ workers.now ∷ []) command.task command.workers) }
    ensures none { IsNone result → IsNoCommand (name.now ∷ workers.now ∷ []) }
{
    let task = parse_task(name)?;
    let workers = parse_workers(workers)?;
    Some(Command { task, workers })
}

// The task that has this name.
fn parse_task(name: &str) -> Option<Task>
    ensures some { IfSome result (λ task. name.now ≡ name_of task) }
    ensures none { IsNone result → (task : Task) → name.now ≡ name_of task → ⊥ }
{
    match name {
        "words" => Some(Task::Words),
        "spans" => Some(Task::Spans),
        _ => None,
    }
}

// The number from 1 to 64 that the digits spell. A sign is no digit.
fn parse_workers(digits: &str) -> Option<usize>
    ensures some { IfSome result (λ number. IsNumber 64 digits.now number) }
    ensures none { IsNone result → (number : ℕ) → IsNumber 64 digits.now number → ⊥ }
{
    if let [b'+', ..] = digits.as_bytes() {
        return None;
    }
    match digits.parse::<usize>() {
        Ok(number) if 1 <= number && number <= 64 => Some(number),
        _ => None,
    }
}
