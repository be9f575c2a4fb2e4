//! Laws of the definitions, each the contract of a function that does nothing.

ghost use Rattle.std.specs.Prelude.{◌≡◌, List, ℕ, [], ◌∷◌, true, codes};
ghost use Rattle.std.specs.Str.Parse.{digits_value};
ghost use Rattle.stabby_tables.specs.Tables.{is_before};
ghost use Rattle.stabby_tables.specs.Lists.{distinct};
ghost use Rattle.stabby_tables.specs.Shares.{share_size};
ghost use Rattle.stabby_tables.specs.Pieces.{lines_of};
ghost use Rattle.stabby_tables.specs.Lines.{IsText};
ghost use Rattle.stabby_tables.specs.Reports.{rank_report, number_report};
ghost use Rattle.stabby_tables.specs.Laws.{IsTotalOrder, IsOrderOfSlices, KeepMembers, IsTheRisingList, AreUnique, ExactlyOneHolds};
ghost use Rattle.stabby_tables.specs.Laws.{RanksArePlaces, StandAsTheyAppeared, SharesOfTen, FirstPlaces, FirstNumbers};
ghost use Rattle.stabby_tables.specs.Laws.{with_a_repeat, fives_and_three, greatest, with_prefixes};

/// Tables are totally ordered, by Rust's order of slices.
pub fn tables_are_ordered()
    ensures total { IsTotalOrder }
    ensures of_slices { IsOrderOfSlices }
{}

/// The distinct and the increasing members of a list are its members.
pub fn members_stay()
    ensures { KeepMembers }
{}

/// The increasing members are strictly rising, and no other list with these members is.
pub fn increasing_is_the_rising_list()
    ensures { IsTheRisingList }
{}

/// A text has at most one list of lines, spells at most one list of tables, and has at most one bad line.
pub fn readings_are_unique()
    ensures { AreUnique }
{}

/// Each text spells tables, or has a first line that spells none, and never both.
pub fn one_reading_holds()
    ensures { ExactlyOneHolds }
{}

/// The place of a table's entry is its rank, in whatever order the tables were added.
pub fn ranks_are_places()
    ensures { RanksArePlaces }
{}

/// What one worker numbers stands in the order in which it first appeared.
pub fn one_worker_keeps_the_order()
    ensures { StandAsTheyAppeared }
{}

/// Who has which places, and which numbers are met first in a share, for small lists.
pub fn shares_of_small_lists()
    ensures shares { SharesOfTen }
    ensures places { FirstPlaces }
    ensures numbers { FirstNumbers }
{}

/// The reports of small inputs, as text.
pub fn reports_of_small_inputs()
    ensures empty_input { rank_report [] ≡ codes "" }
    ensures repeat_gets_one_rank { rank_report with_a_repeat ≡ codes "0\n1\n0\n1 2\n3\n" }
    ensures empty_tables { rank_report ([] ∷ [] ∷ (5 ∷ []) ∷ []) ≡ codes "0\n0\n1\n\n5\n" }
    ensures numbers_in_order_of_insertion { number_report fives_and_three (distinct fives_and_three)
        ≡ codes "0\n1\n0\n5\n3\n" }
    ensures greatest_word { rank_report (greatest ∷ greatest ∷ []) ≡ codes "0\n0\n18446744073709551615\n" }
    ensures prefix_before_longer { rank_report with_prefixes ≡ codes "2\n3\n1\n0\n\n0 9\n1\n1 0\n" }
    ensures single_zero { rank_report ((0 ∷ []) ∷ []) ≡ codes "0\n0\n" }
{}

/// What the definitions say of small and odd inputs.
pub fn odd_inputs()
    ensures no_line { lines_of [] ≡ [] }
    ensures one_empty_line { lines_of (10 ∷ []) ≡ [] ∷ [] }
    ensures ended_line { lines_of (53 ∷ 10 ∷ []) ≡ (53 ∷ []) ∷ [] }
    ensures open_line { lines_of (10 ∷ 10 ∷ 53 ∷ []) ≡ [] ∷ [] ∷ (53 ∷ []) ∷ [] }
    ensures shares { (share_size 3 64 ≡ 1) × (share_size 0 5 ≡ 0) × (share_size 10 4 ≡ 3) × (share_size 2 2 ≡ 1) }
    ensures repeats { distinct ((3 ∷ []) ∷ (1 ∷ []) ∷ (3 ∷ []) ∷ []) ≡ (3 ∷ []) ∷ (1 ∷ []) ∷ [] }
    ensures prefix_is_before { is_before [] (0 ∷ []) ≡ true }
    ensures leading_zeros { digits_value 10 (48 ∷ 48 ∷ 53 ∷ []) ≡ 5 }
    ensures no_empty_last_line { IsText [] ([] ∷ []) → ⊥ }
{}
