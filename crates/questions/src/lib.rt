// The questions that a call asks before it acts, as what it answers where one is answered 'no'; and
// laws of tests and lists that every layer cites.
#![tactic(auto)]

ghost use Rattle.std.specs.Prelude.{◌≡◌};
ghost use Rattle.questions.specs.Refusals.{number, asked, first_of};

use std::error::Error;
use std::fmt;

// Why a call is refused: the first question that was answered 'no'. C callers get its number.
#[derive(Clone, Copy, Debug, PartialEq, Eq)]
pub enum Refusal {
    ShortBuffer = 1,
    Invalid,
    Rate,
    Burst,
    Factor,
    Sizes,
    ClusterSize,
    TableFull,
    Counter,
    LongReport,
    Demand,
    PeersFull,
    Image,
    Word,
    Window,
    ShortOutput,
}

impl Refusal {
    // The question's number.
    pub fn number(self) -> u8
        ensures { result ≡ number self }
    {
        self as u8
    }

    // Of two answers to the same questions, the refusal that is asked first, if there is one.
    #[tactic(auto, unfolding(crate::specs::Refusals::first_of))]
    pub fn first(a: Result<(), Refusal>, b: Result<(), Refusal>) -> Result<(), Refusal>
        ensures { asked result ≡ first_of (asked a) (asked b) }
    {
        match (a, b) {
            (Ok(()), _) => b,
            (_, Ok(())) => a,
            (Err(x), Err(y)) => { if x.number() < y.number() { a } else { b } }
        }
    }
}

impl fmt::Display for Refusal {
    fn fmt<W: fmt::Write>(&self, f: &mut fmt::Formatter<W>) -> fmt::Result {
        f.write_str(match self {
            Refusal::ShortBuffer => "a lent buffer is too short for the configured sizes",
            Refusal::Invalid => "what was lent or handed in could not stand in a valid image",
            Refusal::Rate => "a rate is not finite or not above 0",
            Refusal::Burst => "a burst is not 1 to 4,194,303",
            Refusal::Factor => "alpha is not in (0, 1], or the floor factor not in [0, 1]",
            Refusal::Sizes => "the sizes of the hot set and the table are not in their ranges",
            Refusal::ClusterSize => "the cluster size is not 1 to 65,535",
            Refusal::TableFull => "the key is not tracked and the table is full",
            Refusal::Counter => "a counter that the call raises would not stay within 64 bits",
            Refusal::LongReport => "the report has more than 64 keys",
            Refusal::Demand => "a demand is not finite with a clear sign bit",
            Refusal::PeersFull => "the peer is not known and 32 are",
            Refusal::Image => "the image is not valid",
            Refusal::Word => "the word to unpack has a unit code of 3 or a burst of 0",
            Refusal::Window => "the window is longer than 2^62 ns",
            Refusal::ShortOutput => "the output does not fit",
        })
    }
}

impl Error for Refusal {}
