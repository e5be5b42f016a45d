//! Why a source program is refused, and which limit a run met.
ghost use Rattle.std.specs.Prelude.{◌≡◌};
ghost use Rattle.bal_base.specs.FaultCode.{code_number};

use crate::place::Place;
use crate::row::{Events, NameList};
use crate::shape::Shape;
use crate::text::Name;

/// A limit of a run that a step would pass.
#[derive(Clone, Copy)]
pub enum LimitKind {
    /// The cells of the heap.
    Cells,
    /// The strands made in the run.
    Strands,
}

/// What a refused program did wrong.
#[derive(Clone, Copy, PartialEq, Eq)]
pub enum FaultCode {
    /// A file's bytes are not UTF-8.
    NotUtf8,
    /// No token starts at the place.
    BadToken,
    /// No construct of the grammar starts at the place.
    Syntax,
    /// Brackets or the tree are nested too deeply.
    Depth,
    /// A form of the language that this profile leaves out.
    LeftOut,
    /// The compiler accepts the form but cannot compile it yet.
    NotBuilt,
    /// An import names no module.
    NoModule,
    /// Modules import one another in a cycle.
    ImportCycle,
    /// A name is used twice.
    Duplicate,
    /// A name is not known.
    Unknown,
    /// A name of another module is not public.
    NotPublic,
    /// A type is a part of itself.
    IllFounded,
    /// A question about types is too large.
    TypeLimit,
    /// The program has too many types.
    AtomLimit,
    /// There is no public function `main`.
    NoMain,
    /// A file is too long.
    FileTooLong,
    /// The manifest cannot be read.
    BadManifest,
    /// The package has too many files, modules or bytes.
    TooLarge,
    /// An expression's type is not below the type that is asked for.
    NotSubtype,
    /// A call has the wrong number of arguments.
    Arity,
    /// There is no such member.
    NoField,
    /// The target cannot be assigned.
    AssignFinal,
    /// A captured variable is assigned.
    Captured,
    /// A function can end without a return.
    MissingReturn,
    /// A break or continue stands outside a loop.
    BadBreak,
    /// A value is ignored.
    Ignored,
    /// The signature of `main` is wrong.
    BadMain,
    /// An isolated function reaches something that is not isolated.
    NotIsolated,
    /// A member of an immutable value must be immutable anydata.
    ReadOnlyHolds,
    /// No constructor choice fits.
    NoChoice,
    /// A receive needs a stated type.
    NeedsType,
    /// A worker action is conditional.
    Conditional,
    /// A message has no partner.
    Unpaired,
    /// A worker can end with success before one of its messages.
    SuccessBefore,
    /// Workers wait in a ring.
    WaitCycle,
    /// A worker's name is used as a value.
    NameAsValue,
    /// An action names no such peer.
    NoPeer,
    /// A message is outside the type of its receive.
    BadMessage,
    /// A function has too many workers or events.
    WorkerLimit,
    /// The program is too large.
    CodeLimit,
    /// The program has too many type tests.
    TestLimit,
}

impl FaultCode {
    /// The code's number, as it is printed: from 101 to 502.
    pub fn number(self) -> u16
        ensures { result ≡ code_number self }
    {
        match self {
            FaultCode::NotUtf8 => 101,
            FaultCode::BadToken => 102,
            FaultCode::Syntax => 103,
            FaultCode::Depth => 104,
            FaultCode::LeftOut => 105,
            FaultCode::NotBuilt => 199,
            FaultCode::NoModule => 201,
            FaultCode::ImportCycle => 202,
            FaultCode::Duplicate => 203,
            FaultCode::Unknown => 204,
            FaultCode::NotPublic => 205,
            FaultCode::IllFounded => 206,
            FaultCode::TypeLimit => 207,
            FaultCode::AtomLimit => 208,
            FaultCode::NoMain => 209,
            FaultCode::FileTooLong => 211,
            FaultCode::BadManifest => 212,
            FaultCode::TooLarge => 213,
            FaultCode::NotSubtype => 301,
            FaultCode::Arity => 302,
            FaultCode::NoField => 303,
            FaultCode::AssignFinal => 304,
            FaultCode::Captured => 305,
            FaultCode::MissingReturn => 306,
            FaultCode::BadBreak => 307,
            FaultCode::Ignored => 308,
            FaultCode::BadMain => 309,
            FaultCode::NotIsolated => 310,
            FaultCode::ReadOnlyHolds => 311,
            FaultCode::NoChoice => 312,
            FaultCode::NeedsType => 313,
            FaultCode::Conditional => 401,
            FaultCode::Unpaired => 402,
            FaultCode::SuccessBefore => 403,
            FaultCode::WaitCycle => 404,
            FaultCode::NameAsValue => 405,
            FaultCode::NoPeer => 406,
            FaultCode::BadMessage => 407,
            FaultCode::WorkerLimit => 408,
            FaultCode::CodeLimit => 501,
            FaultCode::TestLimit => 502,
        }
    }
}

/// An event of a worker: a send, a receive, a flush, a wait or its end.
#[derive(Clone, Copy)]
pub struct Event {
    /// The worker's number in its function, 0 for the default worker.
    pub worker: u32,
    /// The event's number in its worker, from 0.
    pub number: u32,
    /// Where the event stands.
    pub at: Place,
}

/// What a refusal shows beside its code and place.
#[derive(Drop)]
pub enum Kept {
    /// Nothing more.
    Nothing,
    /// A shape that is in one type and not in the other.
    Shape(Shape),
    /// The names of a cycle or of a path of calls.
    Names(NameList),
    /// The events of a ring.
    Events(Events),
    /// How many messages were sent and how many received.
    Counts(u64, u64),
    /// A count that passes a limit.
    Count(u64),
}

/// Why a source program is refused.
#[derive(Drop)]
pub struct Fault {
    /// What is wrong.
    pub code: FaultCode,
    /// Where, if the fault has a place.
    pub at: Option<Place>,
    /// What shows it.
    pub kept: Kept,
}

/// A fault with its place as people read it.
#[derive(Drop)]
pub struct Refusal {
    /// The fault.
    pub fault: Fault,
    /// The file's name, empty where the fault has no place.
    pub file: Name,
    /// The line, from 1, and 0 where the fault has no place.
    pub line: u32,
    /// The column in code points, from 1, and 0 where the fault has no place.
    pub column: u32,
}
