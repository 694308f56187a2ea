// What the caller picks by number: the form of the rows, and the dialect of the rule.
ghost use Rattle.std.specs.Prelude.{◌≡◌};
ghost use Rattle.words.specs.Dialects.{dialect_by};
ghost use Rattle.value_rows.specs.Row.{form_by};
ghost use Rattle.services.specs.Picks.{FormPicked, DialectPicked, form_in, dialect_in};

use crate::refusal::Refused;
use words::dialect::{EVERY_PLACE, FIRST_PLACES};

// A row tells its values, or the origins of its values.
#[derive(Clone, Copy, Debug, PartialEq, Eq)]
pub enum RowForm {
    Values,
    Origins,
}

// A cons under a multiset takes every place, or the first place for each value.
#[derive(Clone, Copy, Debug, PartialEq, Eq)]
pub enum Dialect {
    EveryPlace,
    FirstPlaces,
}

// The numbers of the row forms.
const VALUES: u32 = 1;

const ORIGINS: u32 = 2;

impl TryFrom<u32> for RowForm {
    type Error = Refused;

    ghost try_from_gives = { FormPicked };

    #[tactic(auto, using(crate::proofs::Numbers::form_rules))]
    fn try_from(number: u32) -> Result<Self, Refused> {
        match number {
            VALUES => Ok(RowForm::Values),
            ORIGINS => Ok(RowForm::Origins),
            _ => Err(Refused::UnknownForm),
        }
    }
}

impl TryFrom<u32> for Dialect {
    type Error = Refused;

    ghost try_from_gives = { DialectPicked };

    #[tactic(auto, using(crate::proofs::Numbers::dialect_rules))]
    fn try_from(number: u32) -> Result<Self, Refused> {
        match number {
            EVERY_PLACE => Ok(Dialect::EveryPlace),
            FIRST_PLACES => Ok(Dialect::FirstPlaces),
            _ => Err(Refused::UnknownDialect),
        }
    }
}

// The tests and the search are told both picks as truth values.
impl RowForm {
    #[tactic(auto, unfolding(value_rows::specs::Row::form_by))]
    pub fn tells_origins(self) -> bool
        ensures { form_by result ≡ form_in self }
    {
        match self {
            RowForm::Values => false,
            RowForm::Origins => true,
        }
    }
}

impl Dialect {
    #[tactic(auto, unfolding(words::specs::Dialects::dialect_by))]
    pub fn takes_firsts(self) -> bool
        ensures { dialect_by result ≡ dialect_in self }
    {
        match self {
            Dialect::EveryPlace => false,
            Dialect::FirstPlaces => true,
        }
    }
}
