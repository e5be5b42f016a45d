//! Which codes faults of the front have.
#![tactic(auto)]

ghost use Rattle.std.specs.Prelude.{◌↔◌, IsTrue};
ghost use Rattle.compile_front.specs.Codes.{IsFrontCode};

use bal_base::FaultCode;

/// Whether faults of names, of the checks of bodies, of isolation or of messages have the code.
pub fn is_front_code(code: FaultCode) -> bool
    ensures { IsTrue result ↔ IsFrontCode code }
{
    match code {
        FaultCode::NoMain
        | FaultCode::Duplicate
        | FaultCode::Unknown
        | FaultCode::NotPublic
        | FaultCode::IllFounded
        | FaultCode::TypeLimit
        | FaultCode::AtomLimit => true,
        FaultCode::NotSubtype
        | FaultCode::Arity
        | FaultCode::NoField
        | FaultCode::AssignFinal
        | FaultCode::Captured
        | FaultCode::MissingReturn
        | FaultCode::BadBreak
        | FaultCode::Ignored
        | FaultCode::BadMain
        | FaultCode::NotIsolated
        | FaultCode::ReadOnlyHolds
        | FaultCode::NoChoice
        | FaultCode::NeedsType
        | FaultCode::NameAsValue => true,
        FaultCode::Conditional
        | FaultCode::Unpaired
        | FaultCode::SuccessBefore
        | FaultCode::WaitCycle
        | FaultCode::NoPeer
        | FaultCode::BadMessage
        | FaultCode::WorkerLimit => true,
        FaultCode::NotUtf8
        | FaultCode::BadToken
        | FaultCode::Syntax
        | FaultCode::Depth
        | FaultCode::LeftOut
        | FaultCode::NotBuilt
        | FaultCode::NoModule
        | FaultCode::ImportCycle
        | FaultCode::FileTooLong
        | FaultCode::BadManifest
        | FaultCode::TooLarge => false,
        FaultCode::CodeLimit | FaultCode::TestLimit => false,
    }
}
