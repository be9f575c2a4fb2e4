//! Answers in words.

ghost use Rattle.std.specs.Prelude.{◌≡◌, ◌++◌, OnOk};
ghost use Rattle.std.specs.Fmt.{decimal};
ghost use Rattle.plugin_host.specs.Answers.{number_line, load_fault_text, ask_fault_text, guest_fault_text, unload_fault_text, unloaded_text, text_of};

use crate::script::Kind;
use itoa::Buffer;
use stabby_host::{AskFault, GuestFault, LoadFault, UnloadFault};
use std::alloc::AllocError;

/// What the host answered to a call.
#[derive(Clone, Copy, Debug, PartialEq, Eq)]
pub enum Answer {
    /// The plugin's number.
    Load(Result<u64, LoadFault>),
    /// The plugin's value.
    Ask(Result<u64, AskFault>),
    /// A guest has a strong handle.
    Guest(Result<(), GuestFault>),
    /// The plugin's value, where no guest has it.
    Unload(Result<Option<(Kind, u64)>, UnloadFault>),
}

fn put_number(text: &mut Vec<u8>, words: &[u8], number: u64) -> Result<(), AllocError>
    ensures { OnOk result (text.new.items ≡ text.old.items ++ (words.now ++ decimal number)) }
{
    text.extend_from_slice(words)?;
    let mut buffer = Buffer::new();
    text.extend_from_slice(buffer.format(number).as_bytes())
}

fn put_line(text: &mut Vec<u8>, words: &[u8], number: u64) -> Result<(), AllocError>
    ensures { OnOk result (text.new.items ≡ text.old.items ++ number_line words.now number) }
{
    put_number(text, words, number)?;
    text.extend_from_slice(b"\n")
}

fn put_load_fault(text: &mut Vec<u8>, fault: LoadFault) -> Result<(), AllocError>
    ensures { OnOk result (text.new.items ≡ text.old.items ++ load_fault_text fault) }
{
    match fault {
        LoadFault::Full { live } => put_line(text, b"full: live ", live),
        LoadFault::Exhausted { loaded } => put_line(text, b"exhausted: loaded ", loaded),
        LoadFault::Unmet { place } => put_line(text, b"unmet: need ", place),
        LoadFault::Memory => text.extend_from_slice(b"memory\n"),
    }
}

fn put_differs(text: &mut Vec<u8>, held: u64, asked: u64) -> Result<(), AllocError>
    ensures { OnOk result (text.new.items ≡ text.old.items ++ ask_fault_text (AskFault.Differs held asked)) }
{
    put_number(text, b"differs: id ", held)?;
    put_line(text, b", asked ", asked)
}

fn put_ask_fault(text: &mut Vec<u8>, fault: AskFault) -> Result<(), AllocError>
    ensures { OnOk result (text.new.items ≡ text.old.items ++ ask_fault_text fault) }
{
    match fault {
        AskFault::Unknown => text.extend_from_slice(b"unknown\n"),
        AskFault::Ended => text.extend_from_slice(b"ended\n"),
        AskFault::Differs { held, asked } => put_differs(text, held, asked),
    }
}

fn put_guest_fault(text: &mut Vec<u8>, fault: GuestFault) -> Result<(), AllocError>
    ensures { OnOk result (text.new.items ≡ text.old.items ++ guest_fault_text fault) }
{
    match fault {
        GuestFault::Ask(fault) => put_ask_fault(text, fault),
        GuestFault::Full { word } => put_line(text, b"full: word ", word),
        GuestFault::Memory => text.extend_from_slice(b"memory\n"),
    }
}

fn put_unload_fault(text: &mut Vec<u8>, fault: UnloadFault) -> Result<(), AllocError>
    ensures { OnOk result (text.new.items ≡ text.old.items ++ unload_fault_text fault) }
{
    match fault {
        UnloadFault::Unknown => text.extend_from_slice(b"unknown\n"),
        UnloadFault::Ended => text.extend_from_slice(b"ended\n"),
        UnloadFault::Needed { by } => put_line(text, b"needed by ", by),
    }
}

fn put_unloaded(text: &mut Vec<u8>, given: Option<(Kind, u64)>) -> Result<(), AllocError>
    ensures { OnOk result (text.new.items ≡ text.old.items ++ unloaded_text given) }
{
    match given {
        None => text.extend_from_slice(b"unloaded: a guest has the value\n"),
        Some((Kind::Byte, byte)) => put_line(text, b"unloaded: byte ", byte),
        Some((Kind::Number, number)) => put_line(text, b"unloaded: number ", number),
    }
}

/// The answer's line at the end of the text.
pub fn put_answer(text: &mut Vec<u8>, answer: Answer) -> Result<(), AllocError>
    ensures { OnOk result (text.new.items ≡ text.old.items ++ text_of answer) }
{
    match answer {
        Answer::Load(Ok(plugin)) => put_line(text, b"plugin ", plugin),
        Answer::Load(Err(fault)) => put_load_fault(text, fault),
        Answer::Ask(Ok(value)) => put_line(text, b"value ", value),
        Answer::Ask(Err(fault)) => put_ask_fault(text, fault),
        Answer::Guest(Ok(())) => text.extend_from_slice(b"guest\n"),
        Answer::Guest(Err(fault)) => put_guest_fault(text, fault),
        Answer::Unload(Ok(given)) => put_unloaded(text, given),
        Answer::Unload(Err(fault)) => put_unload_fault(text, fault),
    }
}
