//! Lines of a script.

ghost use Rattle.std.specs.Prelude.{◌≡◌, ◌<◌, ◌↔◌, ℕ, IfSome, IsNone, IsTrue, Option, codes};
ghost use Rattle.std.specs.Option.{option_copied};
ghost use Rattle.plugin_host.specs.Lines.{name_of, end_of, Reads, ReadsAfter, ReadsNeed, SpellsNeedText, SpellsValue, SpellsLoad, SpellsAsk};

use stabby_lines::{first_piece, parse_number};

/// The two types of the universe.
#[derive(Clone, Copy, Debug, PartialEq, Eq)]
pub enum Kind {
    Byte,
    Number,
}

/// A line of a script.
#[derive(Clone, Copy, Debug, PartialEq, Eq)]
pub enum Call {
    /// A plugin with this value is loaded, which may need an interface of a kind.
    Load {
        kind: Kind,
        value: u64,
        need: Option<Kind>,
    },
    /// The plugin's value is read as one of this kind.
    Ask {
        kind: Kind,
        plugin: u64,
    },
    /// A guest gets a strong handle of the plugin's value.
    Guest {
        plugin: u64,
    },
    /// The plugin is unloaded.
    Unload {
        plugin: u64,
    },
}

/// The call that a line is; `None` exactly where it is none.
pub fn parse_call(line: &[u8]) -> Option<Call>
    ensures { Reads line.now result }
{
    let (word, rest) = first_piece(line);
    let Some(text) = rest else {
        return None;
    };
    parse_rest(word, text)
}

// The call that begins with this word, and goes on like that.
fn parse_rest(word: &[u8], text: &[u8]) -> Option<Call>
    ensures { ReadsAfter word.now text.now result }
{
    if word == b"load".as_slice() {
        return parse_load(text);
    }
    if word == b"ask".as_slice() {
        return parse_ask(text);
    }
    if word == b"guest".as_slice() {
        return parse_guest(text);
    }
    if word == b"unload".as_slice() {
        return parse_unload(text);
    }
    None
}

fn parse_load(text: &[u8]) -> Option<Call>
    ensures { ReadsAfter (codes "load") text.now result }
{
    let Some(load) = parse_load_text(text) else {
        return None;
    };
    Some(Call::Load {
        kind: load.kind,
        value: load.value,
        need: load.need,
    })
}

// What a load names.
#[derive(Clone, Copy)]
struct Loading {
    kind: Kind,
    value: u64,
    need: Option<Kind>,
}

// KIND N, or KIND N needs KIND
fn parse_load_text(text: &[u8]) -> Option<Loading>
    ensures some { IfSome result (λ load. SpellsLoad text.now load.kind load.value load.need) }
    ensures none { IsNone result → (kind : Kind) (value : ℕ) (need : Option Kind) → SpellsLoad text.now kind value need → ⊥ }
{
    let (name, rest) = first_piece(text);
    let Some(after) = rest else {
        return None;
    };
    let Some(kind) = parse_kind(name) else {
        return None;
    };
    let Some((value, need)) = parse_value(kind, after) else {
        return None;
    };
    Some(Loading { kind, value, need })
}

// N, or N needs KIND
fn parse_value(kind: Kind, text: &[u8]) -> Option<(u64, Option<Kind>)>
    ensures some { IfSome result (λ found. SpellsValue text.now kind found.0 found.1) }
    ensures none { IsNone result → (value : ℕ) (need : Option Kind) → SpellsValue text.now kind value need → ⊥ }
{
    let (digits, after) = first_piece(text);
    let Some(value) = parse_number(digits) else {
        return None;
    };
    if !fits(kind, value) {
        return None;
    }
    let Some(need) = parse_need(after) else {
        return None;
    };
    Some((value, need))
}

// Whether it is a value of the kind.
fn fits(kind: Kind, value: u64) -> bool
    ensures { IsTrue result ↔ (value < end_of kind) }
{
    match kind {
        Kind::Byte => value < 256,
        Kind::Number => true,
    }
}

// Nothing, or needs KIND
fn parse_need(rest: Option<&[u8]>) -> Option<Option<Kind>>
    ensures { ReadsNeed (option_copied rest.entry) result }
{
    match rest {
        None => Some(None),
        Some(text) => match parse_need_text(text) {
            Some(kind) => Some(Some(kind)),
            None => None,
        },
    }
}

fn parse_need_text(text: &[u8]) -> Option<Kind>
    ensures some { IfSome result (λ kind. SpellsNeedText text.now kind) }
    ensures none { IsNone result → (kind : Kind) → SpellsNeedText text.now kind → ⊥ }
{
    if text == b"needs byte".as_slice() {
        return Some(Kind::Byte);
    }
    if text == b"needs number".as_slice() {
        return Some(Kind::Number);
    }
    None
}

// The kind of this name.
fn parse_kind(name: &[u8]) -> Option<Kind>
    ensures some { IfSome result (λ kind. name.now ≡ name_of kind) }
    ensures none { IsNone result → (kind : Kind) → name.now ≡ name_of kind → ⊥ }
{
    if name == b"byte".as_slice() {
        return Some(Kind::Byte);
    }
    if name == b"number".as_slice() {
        return Some(Kind::Number);
    }
    None
}

fn parse_ask(text: &[u8]) -> Option<Call>
    ensures { ReadsAfter (codes "ask") text.now result }
{
    let Some((kind, plugin)) = parse_ask_text(text) else {
        return None;
    };
    Some(Call::Ask { kind, plugin })
}

// KIND P
fn parse_ask_text(text: &[u8]) -> Option<(Kind, u64)>
    ensures some { IfSome result (λ found. SpellsAsk text.now found.0 found.1) }
    ensures none { IsNone result → (kind : Kind) (plugin : ℕ) → SpellsAsk text.now kind plugin → ⊥ }
{
    let (name, rest) = first_piece(text);
    let Some(digits) = rest else {
        return None;
    };
    let Some(kind) = parse_kind(name) else {
        return None;
    };
    let Some(plugin) = parse_number(digits) else {
        return None;
    };
    Some((kind, plugin))
}

fn parse_guest(text: &[u8]) -> Option<Call>
    ensures { ReadsAfter (codes "guest") text.now result }
{
    match parse_number(text) {
        Some(plugin) => Some(Call::Guest { plugin }),
        None => None,
    }
}

fn parse_unload(text: &[u8]) -> Option<Call>
    ensures { ReadsAfter (codes "unload") text.now result }
{
    match parse_number(text) {
        Some(plugin) => Some(Call::Unload { plugin }),
        None => None,
    }
}
