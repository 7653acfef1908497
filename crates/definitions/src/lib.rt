// The answers of the calls: a value, or a refusal in its place. specs/Answers says what each case means.
#![tactic(auto)]

ghost use Rattle.std.specs.Prelude.{◌≡◌};
ghost use Rattle.definitions.specs.Answers.{refusal_number};

// The refusals of documents 01 and 02, each named by what was wrong.
#[derive(Clone, Copy, Debug, PartialEq, Eq)]
pub enum Refusal {
    WorldLength,
    WorldUnsound,
    BadSetup,
    Malformed,
    NoProcess,
    BadMask,
    NoMessage,
    BadTrust,
    Down,
    Full,
    NotInFlight,
    BothUp,
    JournalLength,
    WrongCheck,
    WrongForm,
    RecordsLength,
    OutputLength,
    NotWaiting,
    PairsLength,
}

// The number that a refusal has in these documents.
impl From<Refusal> for u32 {
    ghost from_gives = { λ r n. n ≡ refusal_number r };

    fn from(r: Refusal) -> u32 {
        match r {
            Refusal::WorldLength => 1,
            Refusal::WorldUnsound => 2,
            Refusal::BadSetup => 3,
            Refusal::Malformed => 4,
            Refusal::NoProcess => 5,
            Refusal::BadMask => 6,
            Refusal::NoMessage => 7,
            Refusal::BadTrust => 8,
            Refusal::Down => 9,
            Refusal::Full => 10,
            Refusal::NotInFlight => 11,
            Refusal::BothUp => 12,
            Refusal::JournalLength => 13,
            Refusal::WrongCheck => 14,
            Refusal::WrongForm => 15,
            Refusal::RecordsLength => 16,
            Refusal::OutputLength => 17,
            Refusal::NotWaiting => 18,
            Refusal::PairsLength => 19,
        }
    }
}

// Whose message is awaited: nothing is, a process's message, or a process alone.
#[derive(Clone, Copy, Debug, PartialEq, Eq)]
pub enum Awaiting {
    Nothing,
    Message(u32, u32),
    Process(u32),
}

// How many FIFO and how many causal deliveries a step adds.
#[derive(Clone, Copy, Debug, PartialEq, Eq)]
pub struct Previewing {
    pub fifo: u32,
    pub causal: u32,
}

// How a settle ended: all letters that can move have arrived, or the budget is used up and one remains; each with the number
// of arrivals made.
#[derive(Clone, Copy, Debug, PartialEq, Eq)]
pub enum Settling {
    Done(u32),
    Stopped(u32),
}

// What came of a replay: the number of records after the setup, and how many of these were refused as steps.
#[derive(Clone, Copy, Debug, PartialEq, Eq)]
pub struct Replaying {
    pub steps: usize,
    pub refused: usize,
}
