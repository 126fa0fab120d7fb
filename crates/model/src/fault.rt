ghost use Rattle.std.specs.Prelude.{◌≡◌, Some};
ghost use Rattle.model.specs.Refusals.{fault, fault_text, layer_number, layer_of, number_of};

use std::error::Error;
use std::fmt;

/// Why a call is turned down. A refusal is told by its number.
#[derive(Clone, Copy, Debug, PartialEq, Eq)]
pub enum Refusal {
    /// The text is longer than 65,535 bytes.
    TextTooLong = 1,
    /// A byte is neither a newline nor a printable ASCII character.
    BadByte = 2,
    /// The first line is not the sheet's mark, a space and a 16-bit number.
    BadHeading = 3,
    /// The version is not 1.
    WrongVersion = 4,
    /// The name cells that are lent are fewer than the facts.
    TooFewNameCells = 5,
    /// A line has more than 32 tokens `(` and `!` together.
    TooManyBrackets = 6,
    /// A line has none of the forms of its sheet.
    NoForm = 7,
    /// An argument or an output is no fact and no earlier definition.
    UnknownName = 8,
    /// A name is defined a second time, or an output is listed a second time.
    NamedTwice = 9,
    /// A line's gates, name or output exceed the list that is lent for them.
    SheetTooLarge = 10,
    /// It would be the 41st fact.
    TooManyFacts = 11,
    /// The signal or root list is too short for the net, or the net has too many gates.
    NetTooLarge = 12,
    /// A gate has an unknown kind, or an argument that is no earlier signal.
    BadGate = 13,
    /// A gate has a constant that is no value of the arithmetic.
    BadConstant = 14,
    /// An output is no signal.
    BadOutput = 15,
    /// A node is to be added to a full store.
    StoreFull = 16,
    /// A root is no value and no node that is held.
    BadRoot = 17,
    /// The assignment has a bit beyond the facts.
    BadAssignment = 18,
    /// A list that is lent is shorter than the nodes that are held.
    ListTooShort = 19,
}

/// What the checker was doing when it turned a call down.
#[derive(Clone, Copy, Debug, PartialEq, Eq)]
pub enum Layer {
    /// Reading a sheet.
    Reading = 1,
    /// Checking a net.
    Checking = 2,
    /// Building a diagram.
    Building = 3,
    /// Asking about a diagram.
    Asking = 4,
}

/// A refusal with the place that it is about: a byte of the text, a gate, an output or a root, else 0.
/// It is shown as the refusal's number, its layer and the place.
#[derive(Clone, Copy, Debug, PartialEq, Eq)]
pub struct Fault {
    pub refusal: Refusal,
    pub place: usize,
}

impl From<Refusal> for u8 {
    ghost from_gives = { λ refusal number. number ≡ number_of refusal };

    fn from(refusal: Refusal) -> u8 {
        refusal as u8
    }
}

impl From<Layer> for u8 {
    ghost from_gives = { λ layer number. number ≡ layer_number layer };

    fn from(layer: Layer) -> u8 {
        layer as u8
    }
}

impl fmt::Display for Fault {
    ghost output = { λ f. Some (fault_text f) };

    fn fmt<W: fmt::Write>(&self, f: &mut fmt::Formatter<W>) -> fmt::Result {
        let number = u8::from(self.refusal);
        let layer = u8::from(self.refusal.layer());
        let place = self.place;
        write!(f, "{number} {layer} {place}")
    }
}

impl Error for Fault {}

impl Refusal {
    // A method, since a refusal has a layer and is not converted to it.
    /// The layer that refuses.
    pub fn layer(self) -> Layer
        ensures { layer_number result ≡ layer_of self }
    {
        match self {
            Refusal::TextTooLong
            | Refusal::BadByte
            | Refusal::BadHeading
            | Refusal::WrongVersion
            | Refusal::TooFewNameCells
            | Refusal::TooManyBrackets
            | Refusal::NoForm
            | Refusal::UnknownName
            | Refusal::NamedTwice
            | Refusal::SheetTooLarge
            | Refusal::TooManyFacts => Layer::Reading,
            Refusal::NetTooLarge | Refusal::BadGate | Refusal::BadConstant | Refusal::BadOutput =>
                Layer::Checking,
            Refusal::StoreFull => Layer::Building,
            Refusal::BadRoot | Refusal::BadAssignment | Refusal::ListTooShort => Layer::Asking,
        }
    }

    /// The fault of this refusal at a place.
    pub fn at(self, place: usize) -> Fault
        ensures { result ≡ fault self place }
    {
        Fault {
            refusal: self,
            place,
        }
    }
}
