// Why a service has no result to tell, in the numbers of documents 01 and 02.
ghost use Rattle.std.specs.Prelude.{◌≡◌};
ghost use Rattle.services.specs.Refusals.{refused_numbers};
ghost use Rattle.services.specs.declared.refusal.Refused.TheVariants.{Tested};

use tests::Refusal;

// There is no such row form, or no such dialect; one of the tests 1 to 6 refuses; or one of review's own.
#[derive(Clone, Copy, Debug, PartialEq, Eq)]
pub enum Refused {
    UnknownForm,
    UnknownDialect,
    Tested(Refusal),
    Cap,
    TooBig,
    AlwaysTrue,
}

pub const CAP: u32 = 9;

pub const TOO_BIG: u32 = 10;

pub const ALWAYS_TRUE: u32 = 11;

pub const UNKNOWN_FORM: u32 = 20;

pub const UNKNOWN_DIALECT: u32 = 22;

impl From<Refusal> for Refused {
    ghost from_gives = { λ refusal refused. refused ≡ Tested refusal };

    fn from(refusal: Refusal) -> Refused {
        Refused::Tested(refusal)
    }
}

impl Refused {
    #[tactic(auto, unfolding(crate::specs::Refusals::refused_numbers))]
    pub fn answer(self) -> u32
        ensures { result ≡ (refused_numbers self).answer }
    {
        match self {
            Refused::UnknownForm => UNKNOWN_FORM,
            Refused::UnknownDialect => UNKNOWN_DIALECT,
            Refused::Tested(refusal) => refusal.answer(),
            Refused::Cap => CAP,
            Refused::TooBig => TOO_BIG,
            Refused::AlwaysTrue => ALWAYS_TRUE,
        }
    }

    // The first word at fault, where a test refuses.
    #[tactic(auto, unfolding(crate::specs::Refusals::refused_numbers))]
    pub fn place(self) -> usize
        ensures { result ≡ (refused_numbers self).place }
    {
        match self {
            Refused::Tested(refusal) => refusal.place(),
            _ => 0,
        }
    }

    #[tactic(auto, unfolding(crate::specs::Refusals::refused_numbers))]
    pub fn cause(self) -> u32
        ensures { result ≡ (refused_numbers self).cause }
    {
        match self {
            Refused::Tested(refusal) => refusal.cause(),
            _ => 0,
        }
    }
}
