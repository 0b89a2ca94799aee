// Why a call is refused: four enums, each layer's inside the next, and the one table of their numbers.
ghost use Rattle.std.specs.Prelude.{◌≡◌};
ghost use Rattle.interface.specs.Faults.{text_code, frame_code, record_code, solver_code};
ghost use Rattle.interface.specs.declared.fault.FrameFault.TheVariants.{Text};
ghost use Rattle.interface.specs.declared.fault.RecordFault.TheVariants.{Frame};
ghost use Rattle.interface.specs.declared.fault.SolverFault.TheVariants.{Record};

// What is wrong with the text. Each place is that of a byte in its line, counted from 1.
#[derive(Clone, Copy, Debug, PartialEq, Eq)]
pub enum TextFault {
    // the whole text is empty or longer than 8,192 bytes
    Size,
    // a byte that is neither 0-9, A-F nor a line feed
    Byte(u16),
    // a 133rd digit
    Long(u16),
    // no digit, or an odd count of them; the place after the last digit
    Digits(u16),
    // the last line has no line feed; the place after the last digit
    Unended(u16),
}

// What is wrong with a frame, or the text's fault that kept it from being read.
#[derive(Clone, Copy, Debug, PartialEq, Eq)]
pub enum FrameFault {
    Text(TextFault),
    // no frame has this first byte
    Kind(u16),
    // the first frame is no home, or a later one is
    Order(u16),
    // the frame has another length than its kind asks for
    Length(u16),
}

// What is wrong with a record, by the place of the frame byte that starts the field.
#[derive(Clone, Copy, Debug, PartialEq, Eq)]
pub enum RecordFault {
    Frame(FrameFault),
    // the number of settings is not from 1 to 8
    Settings(u16),
    // a low or a high beyond a million
    Range(u16),
    // a low above its high
    Crossed(u16),
    // a setting or a node that is not on the line
    Node(u16),
    // opposite nodes, or one setting twice
    Clash(u16),
    // another number out of range, or a coefficient 0 off setting 0
    Number(u16),
    // a sum with no term
    Empty(u16),
}

// Why the solver refuses a call.
#[derive(Clone, Copy, Debug, PartialEq, Eq)]
pub enum SolverFault {
    Record(RecordFault),
    // no place for a rule
    Rules,
    // the call does not fit the phase
    Phase,
    // a lent slice is shorter than what it holds
    Short,
    // no checkpoint to go back to
    Unmarked,
    // no place for a checkpoint
    Marks,
    // a stack slice of no places
    Stack,
    // a limit of a void shape
    Void,
}

// A fault in numbers, as the line that C reads has it: its number, the layer that found it, and the place that it names,
// 0 where it names none.
#[derive(Clone, Copy, Debug, PartialEq, Eq)]
pub struct Code {
    pub number: u8,
    pub layer: u8,
    pub place: u16,
}

fn coded(number: u8, layer: u8, place: u16) -> Code
    ensures { result ≡ record { number = number; layer = layer; place = place } }
{
    Code {
        number,
        layer,
        place,
    }
}

impl TextFault {
    pub fn code(&self) -> Code
        ensures { result ≡ text_code self.now }
    {
        match *self {
            TextFault::Size => coded(1, 1, 0),
            TextFault::Byte(place) => coded(2, 1, place),
            TextFault::Long(place) => coded(3, 1, place),
            TextFault::Digits(place) => coded(4, 1, place),
            TextFault::Unended(place) => coded(5, 1, place),
        }
    }
}

impl FrameFault {
    pub fn code(&self) -> Code
        ensures { result ≡ frame_code self.now }
    {
        match *self {
            FrameFault::Text(fault) => fault.code(),
            FrameFault::Kind(place) => coded(6, 2, place),
            FrameFault::Order(place) => coded(7, 2, place),
            FrameFault::Length(place) => coded(8, 2, place),
        }
    }
}

impl RecordFault {
    pub fn code(&self) -> Code
        ensures { result ≡ record_code self.now }
    {
        match *self {
            RecordFault::Frame(fault) => fault.code(),
            RecordFault::Settings(place) => coded(9, 3, place),
            RecordFault::Range(place) => coded(10, 3, place),
            RecordFault::Crossed(place) => coded(11, 3, place),
            RecordFault::Node(place) => coded(12, 3, place),
            RecordFault::Clash(place) => coded(13, 3, place),
            RecordFault::Number(place) => coded(14, 3, place),
            RecordFault::Empty(place) => coded(15, 3, place),
        }
    }
}

impl SolverFault {
    pub fn code(&self) -> Code
        ensures { result ≡ solver_code self.now }
    {
        match *self {
            SolverFault::Record(fault) => fault.code(),
            SolverFault::Rules => coded(16, 4, 0),
            SolverFault::Phase => coded(17, 4, 0),
            SolverFault::Short => coded(18, 4, 0),
            SolverFault::Unmarked => coded(19, 4, 0),
            SolverFault::Marks => coded(20, 4, 0),
            SolverFault::Stack => coded(21, 4, 0),
            SolverFault::Void => coded(22, 4, 0),
        }
    }
}

// Each layer carries the fault of the layer below whole.
impl From<TextFault> for FrameFault {
    ghost from_gives = { λ fault r. r ≡ Text fault };

    fn from(value: TextFault) -> FrameFault {
        FrameFault::Text(value)
    }
}

impl From<FrameFault> for RecordFault {
    ghost from_gives = { λ fault r. r ≡ Frame fault };

    fn from(value: FrameFault) -> RecordFault {
        RecordFault::Frame(value)
    }
}

impl From<RecordFault> for SolverFault {
    ghost from_gives = { λ fault r. r ≡ Record fault };

    fn from(value: RecordFault) -> SolverFault {
        SolverFault::Record(value)
    }
}

// A fault carried through more than one layer.
impl From<TextFault> for SolverFault {
    ghost from_gives = { λ fault r. r ≡ Record (Frame (Text fault)) };

    fn from(value: TextFault) -> SolverFault {
        SolverFault::from(RecordFault::from(FrameFault::from(value)))
    }
}

impl From<FrameFault> for SolverFault {
    ghost from_gives = { λ fault r. r ≡ Record (Frame fault) };

    fn from(value: FrameFault) -> SolverFault {
        SolverFault::from(RecordFault::from(value))
    }
}
