//! Laws of the course of a file: its statements have their ranges, its worlds stay good and paid, and none of its groups is stuck.
//! So the world behind each statement is in order. Laws of certificates of typing stand in `certificates`, and those of
//! snapshots in `snapshots`.
#![tactic(auto)]

pub mod certificates;
pub mod snapshots;

ghost use Rattle.laws_files.specs.Files.{WorldsAreInOrder};
ghost use Rattle.laws_files.specs.Laws.{CoursesBeginGood, CoursesBeginPaid, CoursesStayGood, CoursesStayPaid, StatementsHaveRanges};

/// The fields of a statement that a node of fewer than 2^32 nodes spells are within their ranges.
pub fn statements_have_ranges()
    ensures { StatementsHaveRanges }
{}

/// A first statement begins a good course, or is refused.
pub fn courses_begin_good()
    ensures { CoursesBeginGood }
{}

/// A statement leaves a good course good, with what it grants granted, or is refused; it is never stuck.
pub fn courses_stay_good()
    ensures { CoursesStayGood }
{}

/// A first statement begins a course whose world is paid, or is refused.
pub fn courses_begin_paid()
    ensures { CoursesBeginPaid }
{}

/// A statement leaves a paid course paid: without a rate nothing is paid or burnt for storage, and with one each contract has paid
/// for all of its size.
pub fn courses_stay_paid()
    ensures { CoursesStayPaid }
{}

/// Behind each statement of a file, balances, fees and burns are together what was granted; each contract's script is typed and its storage has
/// its type; of each ticket what is held is what was minted less what was burnt; and storage is paid.
pub fn worlds_are_in_order()
    ensures { WorldsAreInOrder }
{}
