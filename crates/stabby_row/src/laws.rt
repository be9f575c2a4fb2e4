//! What the rule of a row says, each the contract of a function that does nothing.
//!
//! The rule, `RowRule` in `specs/Rule.antt`, holds of the words and of all passes between any two steps of any threads.
ghost use Rattle.stabby_row.specs.Laws.{EachStepKeeps, LinkedWordsStay, WholePassHasAll, EachRowLiesApart, ClaimedWordsNeverWrap};

/// Each kind of step keeps the rule, appends at most one node to the row's list and gives no claimed word back.
pub fn each_step_keeps_the_rule()
    ensures { EachStepKeeps }
{}

/// The link, the length and the words of a linked node never change.
pub fn linked_words_stay()
    ensures { LinkedWordsStay }
{}

/// The front of a whole pass is all of the row's list.
pub fn whole_pass_has_all()
    ensures { WholePassHasAll }
{}

/// Linked and claimed ranges lie within the row and share no word, so a row has at most half as many tables as words.
pub fn ranges_lie_apart()
    ensures { EachRowLiesApart }
{}

/// The count of the claimed words never wraps, whatever is claimed in vain.
pub fn claimed_words_never_wrap()
    ensures { ClaimedWordsNeverWrap }
{}
