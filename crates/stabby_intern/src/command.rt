//! The words of the command line.

ghost use Rattle.std.specs.Prelude.{◌≡◌, ◌∷◌, [], ℕ, map, IfSome, IsNone, string_bytes};
ghost use Rattle.stabby_intern.specs.Commands.{name_of, Asks, IsNumber, IsCommand, IsGeneration, IsNoCommand};

use crate::word::parse_word;

/// What a run writes of the tables that it interned.
#[derive(Clone, Copy, Debug, PartialEq, Eq)]
pub enum Task {
    /// The rank of each, and the distinct ones in increasing order.
    Ranks,
    /// The number of each, and the distinct ones in the order of their numbers.
    Numbers,
}

/// A task on the tables of the input, and the number of workers that share them.
#[derive(Clone, Copy, Debug, PartialEq, Eq)]
pub struct Interning {
    pub task: Task,
    pub workers: usize,
}

/// How many tables to make, of remainders by which divisor, and the number of workers that share them.
#[derive(Clone, Copy, Debug, PartialEq, Eq)]
pub struct Generation {
    pub tables: u64,
    pub divisor: u64,
    pub workers: usize,
}

/// What the words ask for.
#[derive(Clone, Copy, Debug, PartialEq, Eq)]
pub enum Command {
    /// A report on the tables of the input.
    Intern(Interning),
    /// Counts of generated tables; the input isn't read.
    Generate(Generation),
}

// The greatest number of generated tables, and the greatest divisor.
const GENERATION_LIMIT: u64 = 1_000_000;

const MOST_WORKERS: u64 = 64;

/// The command that the words are.
pub fn parse_command(words: &[String]) -> Option<Command>
    ensures some { IfSome result (λ command. Asks (map string_bytes words.now) command) }
    ensures none { IsNone result → IsNoCommand (map string_bytes words.now) }
{
    match words {
        [name, workers] => {
            let interning = parse_interning(name.as_str(), workers.as_str())?;
            Some(Command::Intern(interning))
        }
        [name, tables, divisor, workers] => {
            let generation = parse_generation(
                name.as_str(),
                tables.as_str(),
                divisor.as_str(),
                workers.as_str(),
            )?;
            Some(Command::Generate(generation))
        }
        _ => None,
    }
}

// A task's name, and a number of workers from 1 to 64.
fn parse_interning(name: &str, workers: &str) -> Option<Interning>
    ensures some { IfSome result (λ asked. IsCommand (name.now ∷ workers.now ∷ []) asked.task asked.workers) }
    ensures none { IsNone result → (task : Task) (number : ℕ)
        → IsCommand (name.now ∷ workers.now ∷ []) task number → ⊥ }
{
    let task = parse_task(name)?;
    let workers = parse_number(workers, MOST_WORKERS)?;
    Some(Interning {
        task,
        workers: workers as usize,
    })
}

// The name `gen`, a number of tables and a divisor, each from 1 to 1,000,000, and a number of workers from 1 to 64.
fn parse_generation(name: &str, tables: &str, divisor: &str, workers: &str) -> Option<Generation>
    ensures some { IfSome result (λ asked. IsGeneration (name.now ∷ tables.now ∷ divisor.now ∷ workers.now ∷ [])
        asked.tables asked.divisor asked.workers) }
    ensures none { IsNone result → (count by number : ℕ)
        → IsGeneration (name.now ∷ tables.now ∷ divisor.now ∷ workers.now ∷ []) count by number → ⊥ }
{
    if name != "gen" {
        return None;
    }
    let tables = parse_number(tables, GENERATION_LIMIT)?;
    let divisor = parse_number(divisor, GENERATION_LIMIT)?;
    let workers = parse_number(workers, MOST_WORKERS)?;
    if divisor % 7 == 0 {
        return None;
    }
    Some(Generation {
        tables,
        divisor,
        workers: workers as usize,
    })
}

// The task that has this name.
fn parse_task(name: &str) -> Option<Task>
    ensures some { IfSome result (λ task. name.now ≡ name_of task) }
    ensures none { IsNone result → (task : Task) → name.now ≡ name_of task → ⊥ }
{
    match name {
        "ranks" => Some(Task::Ranks),
        "numbers" => Some(Task::Numbers),
        _ => None,
    }
}

// The number, from 1 to the greatest, that the digits spell.
fn parse_number(digits: &str, most: u64) -> Option<u64>
    ensures some { IfSome result (λ number. IsNumber most digits.now number) }
    ensures none { IsNone result → (number : ℕ) → IsNumber most digits.now number → ⊥ }
{
    match parse_word(digits.as_bytes()) {
        Some(number) if 1 <= number && number <= most => Some(number),
        _ => None,
    }
}
