//! Shared texts: counted handles of a text that keeps its capacity.
use crate::fault::{CountFault, TryCountFault};
use crate::spent::Spent;
use crate::strong::Arc;
use crate::weak::Weak;
use stabby_layout::AllocationError;
use stabby_text::String;
use std::alloc::Global;
use std::sync::Wait;

/// A strong handle of a shared text, which is UTF-8 whatever is done to it.
#[derive(Drop)]
pub struct ArcStr {
    pub(crate) shared: Arc<String<Global>>,
}

/// A weak handle of a shared text.
#[derive(Drop)]
pub struct WeakStr {
    pub(crate) shared: Weak<String<Global>>,
}

impl ArcStr {
    ghost use Rattle.std.specs.Prelude.{◌≡◌, ◌<◌, length, slice_index, IsTrue, false, [], IfOk, IfErr, OnOk, OnErr, IsOk};
    ghost use Rattle.std.specs.Str.{IsUtf8};
    ghost use Rattle.stabby_text.specs.Texts.{with_byte};
    ghost use Rattle.stabby_count.specs.SharedTexts.{text_value, text_bytes, text_block, text_record, weak_text_value, weak_text_block, weak_text_record, IsSoleText, IsSharedText, IsSameText, TextFindsOthers};
    ghost use Rattle.stabby_count.specs.Records.{AddsStep, RaisesAfterLooks, ReadsAlone, Refuses, alone, strong_of, weak_of};
    ghost use Rattle.stabby_count.specs.declared.fault.CountFault.TheVariants.{Memory as NoMemory};
    ghost use Rattle.stabby_count.specs.declared.machine.Step.TheVariants.{Clone as CloneNote, Downgrade as DowngradeNote};
    ghost use Rattle.stabby_layout.specs.declared.error.AllocationError.TheVariants.{Memory};

    /// Shares a text, with its capacity. The handle is sole. Where there is no memory the text comes back.
    pub fn from_string(
        alloc: Global,
        value: String<Global>,
    ) -> Result<ArcStr, (String<Global>, AllocationError)>
        ensures value { IfOk result (λ made. text_value made ≡ value) }
        ensures sole { IfOk result IsSoleText }
        ensures new_record { IfOk result (λ made. text_record made ≡ []) }
        ensures value_back { IfErr result (λ back. back ≡ (value, Memory)) }
    {
        match Arc::try_new_in(alloc, value) {
            Ok(shared) => Ok(ArcStr { shared }),
            Err(back) => Err(back),
        }
    }

    /// The text with its capacity, where this is the only handle, by one exchange.
    ///
    /// The handle comes back exactly where the exchange read a word that isn't one strong and one weak.
    pub fn try_into_string(self) -> Result<String<Global>, ArcStr>
        ensures value { IfOk result (λ text. text ≡ text_value self) }
        ensures value_back { IfErr result (IsSameText self) }
        ensures shared { IfErr result (TextFindsOthers self) }
        ensures sole { IsSoleText self → IsOk result }
    {
        let ArcStr { shared } = self;
        match shared.try_into_inner() {
            Ok(text) => Ok(text),
            Err(shared) => Err(ArcStr { shared }),
        }
    }

    /// The text.
    pub fn as_str(&self) -> &str
        ensures value { result.now ≡ text_bytes self.now }
        ensures utf8 { IsUtf8 (text_bytes self.now) }
    {
        self.shared.as_str()
    }

    /// Writes an ASCII byte over an ASCII byte and changes no other, where this is the only handle.
    ///
    /// It answers `false`, with the text unchanged, exactly where the word read isn't one strong and one weak.
    pub fn set_ascii(&mut self, at: usize, byte: u8) -> bool
        requires in_bounds { at < length (text_bytes self.old) }
        requires old_ascii { slice_index (text_bytes self.old) at < 128 }
        requires new_ascii { byte < 128 }
        ensures written { IsTrue result → text_value self.new ≡ with_byte (text_value self.old) at byte }
        ensures unchanged { result ≡ false → text_value self.new ≡ text_value self.old }
        ensures unique { ReadsAlone (text_record self.old) (text_record self.new) result }
        ensures sole { IsSoleText self.old → IsTrue result }
        ensures becomes_sole { IsTrue result → IsSoleText self.new }
        ensures block { text_block self.new ≡ text_block self.old }
    {
        match self.shared.get_mut() {
            Some(text) => {
                text.set_ascii(at, byte);
                true
            }
            None => false,
        }
    }

    /// Whether this is the only handle, from one read of the word.
    pub fn is_unique(&mut self) -> bool
        ensures unique { ReadsAlone (text_record self.old) (text_record self.new) result }
        ensures sole { IsSoleText self.old → IsTrue result }
        ensures becomes_sole { IsTrue result → IsSoleText self.new }
        ensures kept { IsSameText self.old self.new }
    {
        self.shared.is_unique()
    }

    /// One more strong handle of the same text. It tries again where another handle was in the way.
    pub fn clone<H: Wait>(&mut self, rt: &H) -> Result<ArcStr, CountFault>
        ensures value { IfOk result (λ other. text_value other ≡ text_value self.old) }
        ensures block { IfOk result (λ other. text_block other ≡ text_block self.old) }
        ensures added { OnOk result (RaisesAfterLooks CloneNote strong_of (text_record self.old) (text_record self.new)) }
        ensures copied { IfOk result (λ other. text_record other ≡ text_record self.new) }
        ensures shares { IfOk result (λ other. IsSharedText self.new × IsSharedText other) }
        ensures stays_sole { IsSoleText self.old → OnErr result (IsSoleText self.new) }
        ensures sole_word { IsSoleText self.old → OnOk result (AddsStep CloneNote (text_record self.old) (text_record self.new) alone) }
        ensures fault { IfErr result (Refuses strong_of (text_record self.old) (text_record self.new)) }
        ensures sole { IsSoleText self.old → IfErr result (λ fault. fault ≡ NoMemory) }
        ensures kept { IsSameText self.old self.new }
    {
        match self.shared.clone(rt) {
            Ok(shared) => Ok(ArcStr { shared }),
            Err(fault) => Err(fault),
        }
    }

    /// One weak handle of the same text. It tries again where another handle was in the way.
    pub fn downgrade<H: Wait>(&mut self, rt: &H) -> Result<WeakStr, CountFault>
        ensures value { IfOk result (λ weak. weak_text_value weak ≡ text_value self.old) }
        ensures block { IfOk result (λ weak. weak_text_block weak ≡ text_block self.old) }
        ensures added { OnOk result (RaisesAfterLooks DowngradeNote weak_of (text_record self.old) (text_record self.new)) }
        ensures copied { IfOk result (λ weak. weak_text_record weak ≡ text_record self.new) }
        ensures shares { OnOk result (IsSharedText self.new) }
        ensures stays_sole { IsSoleText self.old → OnErr result (IsSoleText self.new) }
        ensures sole_word { IsSoleText self.old → OnOk result (AddsStep DowngradeNote (text_record self.old) (text_record self.new) alone) }
        ensures fault { IfErr result (Refuses weak_of (text_record self.old) (text_record self.new)) }
        ensures sole { IsSoleText self.old → IfErr result (λ fault. fault ≡ NoMemory) }
        ensures kept { IsSameText self.old self.new }
    {
        match self.shared.downgrade(rt) {
            Ok(shared) => Ok(WeakStr { shared }),
            Err(fault) => Err(fault),
        }
    }
}

impl WeakStr {
    ghost use Rattle.std.specs.Prelude.{◌≡◌, ◌<◌, ◌++◌, ◌∷◌, [], IfOk, IfErr, IfSome, IfNone, OnOk, OnSome};
    ghost use Rattle.stabby_count.specs.SharedTexts.{text_value, text_block, text_record, weak_text_value, weak_text_block, weak_text_record, IsSharedText, IsSameWeakText};
    ghost use Rattle.stabby_count.specs.Shared.{spent_block, spent_record, spent_word};
    ghost use Rattle.stabby_count.specs.Records.{RaisesAfterLooks, Refuses, RefusesTry, Upgrades, UpgradesAfterLooks, FindsNone, FindsNoneAfterLooks, note, strong_of, weak_of};
    ghost use Rattle.stabby_count.specs.declared.machine.Step.TheVariants.{Downgrade as DowngradeNote, EndWeak as EndNote};

    /// A strong handle of the same text, by one try. `None` comes only where the word read had no strong handle.
    pub fn try_upgrade(&mut self) -> Result<Option<ArcStr>, TryCountFault>
        ensures value { IfOk result (λ found. IfSome found (λ strong. text_value strong ≡ weak_text_value self.old)) }
        ensures block { IfOk result (λ found. IfSome found (λ strong. text_block strong ≡ weak_text_block self.old)) }
        ensures added { IfOk result (λ found. OnSome found (Upgrades (weak_text_record self.old) (weak_text_record self.new))) }
        ensures copied { IfOk result (λ found. IfSome found (λ strong. text_record strong ≡ weak_text_record self.new)) }
        ensures shares { IfOk result (λ found. IfSome found IsSharedText) }
        ensures none { IfOk result (λ found. IfNone found (FindsNone (weak_text_record self.old) (weak_text_record self.new))) }
        ensures fault { IfErr result (RefusesTry strong_of (weak_text_record self.old) (weak_text_record self.new)) }
        ensures kept { IsSameWeakText self.old self.new }
    {
        match self.shared.try_upgrade() {
            Ok(Some(shared)) => Ok(Some(ArcStr { shared })),
            Ok(None) => Ok(None),
            Err(fault) => Err(fault),
        }
    }

    /// A strong handle of the same text. It tries again where another handle was in the way.
    ///
    /// `None` comes only where the word read had no strong handle.
    pub fn upgrade<H: Wait>(&mut self, rt: &H) -> Result<Option<ArcStr>, CountFault>
        ensures value { IfOk result (λ found. IfSome found (λ strong. text_value strong ≡ weak_text_value self.old)) }
        ensures block { IfOk result (λ found. IfSome found (λ strong. text_block strong ≡ weak_text_block self.old)) }
        ensures added { IfOk result (λ found. OnSome found (UpgradesAfterLooks (weak_text_record self.old) (weak_text_record self.new))) }
        ensures copied { IfOk result (λ found. IfSome found (λ strong. text_record strong ≡ weak_text_record self.new)) }
        ensures shares { IfOk result (λ found. IfSome found IsSharedText) }
        ensures none { IfOk result (λ found. IfNone found (FindsNoneAfterLooks (weak_text_record self.old) (weak_text_record self.new))) }
        ensures fault { IfErr result (Refuses strong_of (weak_text_record self.old) (weak_text_record self.new)) }
        ensures kept { IsSameWeakText self.old self.new }
    {
        match self.shared.upgrade(rt) {
            Ok(Some(shared)) => Ok(Some(ArcStr { shared })),
            Ok(None) => Ok(None),
            Err(fault) => Err(fault),
        }
    }

    /// One more weak handle of the same text. It tries again where another handle was in the way.
    pub fn clone<H: Wait>(&mut self, rt: &H) -> Result<WeakStr, CountFault>
        ensures value { IfOk result (λ other. weak_text_value other ≡ weak_text_value self.old) }
        ensures block { IfOk result (λ other. weak_text_block other ≡ weak_text_block self.old) }
        ensures added { OnOk result (RaisesAfterLooks DowngradeNote weak_of (weak_text_record self.old) (weak_text_record self.new)) }
        ensures copied { IfOk result (λ other. weak_text_record other ≡ weak_text_record self.new) }
        ensures fault { IfErr result (Refuses weak_of (weak_text_record self.old) (weak_text_record self.new)) }
        ensures kept { IsSameWeakText self.old self.new }
    {
        match self.shared.clone(rt) {
            Ok(shared) => Ok(WeakStr { shared }),
            Err(fault) => Err(fault),
        }
    }

    /// Ends the handle by one step, which released the block exactly where it read the word 1.
    pub fn end(self) -> Spent
        ensures added { spent_record result ≡ weak_text_record self ++ note EndNote (spent_word result) ∷ [] }
        ensures had_weak { 0 < weak_of (spent_word result) }
        ensures block { spent_block result ≡ weak_text_block self }
    {
        let WeakStr { shared } = self;
        shared.end()
    }
}
