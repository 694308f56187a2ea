// Document 02, No. 7: one block of a book, tested, read and written.
#![tactic(auto)]

pub mod fault;
pub mod form;
pub mod reading;
pub mod writing;

// A block's bytes.
pub const BLOCK: usize = book_words::BLOCK;

// Where its words stand: 0 has the block's number, 1 the version, 2 the badge, 3 the rule's length, 4 the matcher's length and the dialect; then the rule.
pub(crate) const NUMBER_AT: usize = 0;

pub(crate) const VERSION_AT: usize = 2;

pub(crate) const BADGE_AT: usize = 4;

pub(crate) const LENGTH_AT: usize = 6;

pub(crate) const FOURTH_AT: usize = 8;

pub(crate) const RULE_AT: usize = 10;

// How many words stand from the badge, from the length and from the rule on, up to the check.
pub(crate) const FROM_BADGE: usize = 252;

pub(crate) const FROM_LENGTH: usize = 251;

pub(crate) const FROM_RULE: usize = 249;

// The top bit of word 4.
pub(crate) const DIALECT_BIT: u16 = 32768;
