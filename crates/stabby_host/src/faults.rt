//! Why a host refuses.

/// Why a plugin was not loaded. The plugins and the registry are as before.
#[derive(Clone, Copy, Debug, PartialEq, Eq)]
pub enum LoadFault {
    /// As many plugins are live as the limit allows.
    Full { live: u64 },
    /// As many plugins were loaded as a host can count: 4,294,967,295.
    Exhausted { loaded: u64 },
    /// No live plugin meets the need at this place, and it is the first such need.
    Unmet { place: u64 },
    /// Memory could not be had.
    Memory,
}

/// Why a question about a plugin has no answer.
#[derive(Clone, Copy, Debug, PartialEq, Eq)]
pub enum AskFault {
    /// No plugin of this number was loaded.
    Unknown,
    /// The plugin was unloaded.
    Ended,
    /// The plugin's value is not of the type asked for: its id is `held`, and that type's is `asked`. The two are equal
    /// where only the reports differ.
    Differs { held: u64, asked: u64 },
}

/// Why a plugin can't be viewed with a table.
#[derive(Clone, Copy, Debug, PartialEq, Eq)]
pub enum ViewFault {
    /// `Unknown` or `Ended`.
    Ask(AskFault),
    /// The words that the table lists are not the plugin's table, whose number is `held`.
    OtherTable { held: u64 },
    /// Memory could not be had.
    Memory,
}

/// Why a plugin gives no weak handle.
#[derive(Clone, Copy, Debug, PartialEq, Eq)]
pub enum GuestFault {
    /// `Unknown` or `Ended`.
    Ask(AskFault),
    /// The word read has as many weak handles as can be counted.
    Full { word: u64 },
    /// Memory could not be had.
    Memory,
}

/// Why a plugin was not unloaded. The plugins are as before.
#[derive(Clone, Copy, Debug, PartialEq, Eq)]
pub enum UnloadFault {
    /// No plugin of this number was loaded.
    Unknown,
    /// The plugin was unloaded before.
    Ended,
    /// A live plugin is bound to it: `by` is the least.
    Needed { by: u64 },
}
