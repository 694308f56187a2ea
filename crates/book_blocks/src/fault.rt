// Document 02's refusals: 12 to 15 of a block, 14 to 18 of an add, 23 of a withdrawal.
ghost use Rattle.std.specs.Prelude.{◌≡◌};
ghost use Rattle.book_blocks.specs.Faults.{number_of, answer_of};

#[derive(Clone, Copy, Debug, PartialEq, Eq)]
pub enum Fault {
    Check = 12,
    Number = 13,
    Version = 14,
    Form = 15,
    Live = 16,
    NoBlock = 17,
    TooLong = 18,
    NotLive = 23,
}

impl Fault {
    // The number that the document gives it, as `number_of` of this crate's definitions says; another enum has its own.
    pub fn number(self) -> u32
        ensures { result ≡ number_of self }
    {
        self as u32
    }
}

// What a call answers: 0, or the number of its refusal.
pub fn answer<T>(told: &Result<T, Fault>) -> u32
    ensures { result ≡ answer_of told.now }
{
    match told {
        Ok(_) => 0,
        Err(fault) => fault.number(),
    }
}
