//! Which faults there are in what definitions say of names.
ghost use Rattle.std.specs.Prelude.{◌≡◌, Some as Present, slice_get};
ghost use Rattle.name_resolution.specs.Faults.{definition_fault as definition_fault_of, form_fault as form_fault_of};
ghost use Rattle.name_resolution.specs.Resolved.{fault_at, fault_of as fault_of_mention, first_fault as first_fault_in, if_seen, is_type as is_type_of, resolved, unless_first as unless_first_of};
ghost use Rattle.name_resolution.specs.Tables.{IsTableOf};

use crate::main_form::is_main;
use crate::mentions::Mention;
use crate::outlines::{Kind, Outline};
use crate::table::NameTable;
use bal_base::{Fault, FaultCode, Kept, Name, Place};

/// The definitions of a package, and the first of each name.
#[derive(Drop)]
pub(crate) struct Resolver<'a> {
    pub(crate) outlines: &'a [Outline],
    pub(crate) table: &'a NameTable,
}

impl Kind {
    fn is_type(self) -> bool
        ensures { result ≡ is_type_of self }
    {
        match self {
            Kind::TypeName | Kind::Constant => true,
            Kind::Variable | Kind::Function => false,
        }
    }
}

fn fault(code: FaultCode, at: Place) -> Fault
    ensures { result ≡ fault_at code at }
{
    Fault {
        code,
        at: Some(at),
        kept: Kept::Nothing,
    }
}

impl Resolver<'_> {
    /// The number of the definition that the name of a type stands for, seen from a module, where it is sought in `home`.
    pub(crate) fn resolve(
        &self,
        from: usize,
        home: Option<usize>,
        name: &Name,
    ) -> Result<usize, FaultCode>
        requires { IsTableOf self.now.outlines.now self.now.table.now.numbers }
        ensures { result ≡ resolved self.now.outlines.now from home name.now }
    {
        let Some(home) = home else {
            return Err(FaultCode::Unknown);
        };
        match self.table.number(home, name) {
            Some(number) => self.seen(from, number),
            None => Err(FaultCode::Unknown),
        }
    }

    fn seen(&self, from: usize, number: usize) -> Result<usize, FaultCode>
        ensures { result ≡ if_seen from number (slice_get self.now.outlines.now number) }
    {
        match self.outlines.get(number) {
            Some(d) => as_type(from, number, d),
            None => Err(FaultCode::Unknown),
        }
    }

    /// The first fault of a definition in text order.
    pub(crate) fn first_fault(&self, number: usize, d: &Outline) -> Option<Fault>
        requires { IsTableOf self.now.outlines.now self.now.table.now.numbers }
        ensures { result ≡ first_fault_in self.now.outlines.now number d.now d.now.mentions }
    {
        for mention in d.mentions.as_slice() {
            if let Some(fault) = self.fault_of(number, d, mention) {
                return Some(fault);
            }
        }
        None
    }

    /// The same, or else the fault of the form of `main` in the module `home`.
    pub(crate) fn definition_fault(&self, home: usize, number: usize, d: &Outline) -> Option<Fault>
        requires { IsTableOf self.now.outlines.now self.now.table.now.numbers }
        ensures { result ≡ definition_fault_of self.now.outlines.now home number d.now }
    {
        match self.first_fault(number, d) {
            Some(fault) => Some(fault),
            None => form_fault(home, d),
        }
    }

    fn fault_of(&self, number: usize, d: &Outline, mention: &Mention) -> Option<Fault>
        requires { IsTableOf self.now.outlines.now self.now.table.now.numbers }
        ensures { result ≡ fault_of_mention self.now.outlines.now number d.now mention.now }
    {
        match mention {
            Mention::Use { home, name, at, .. } => match self.resolve(d.module, *home, name) {
                Ok(_) => None,
                Err(code) => Some(fault(code, *at)),
            },
            Mention::Again { at } => Some(fault(FaultCode::Duplicate, *at)),
            Mention::Own { at } => unless_first(number, *at, self.table.number(d.module, &d.name)),
        }
    }
}

/// The type that stands under a definition's name, as it is seen from a module.
fn as_type(from: usize, number: usize, d: &Outline) -> Result<usize, FaultCode>
    ensures { result ≡ if_seen from number (Present d.now) }
{
    if from != d.module && !d.public {
        Err(FaultCode::NotPublic)
    } else if d.kind.is_type() {
        Ok(number)
    } else {
        Err(FaultCode::Unknown)
    }
}

/// `BadMain` where this is the function `main` of the module `home` and can't be.
fn form_fault(home: usize, d: &Outline) -> Option<Fault>
    ensures { result ≡ form_fault_of home d.now }
{
    if home == d.module && is_main(&d.name) && !d.may_be_main {
        Some(fault(FaultCode::BadMain, d.at))
    } else {
        None
    }
}

/// `Duplicate` unless the definition is the first of its name.
fn unless_first(number: usize, at: Place, first: Option<usize>) -> Option<Fault>
    ensures { result ≡ unless_first_of number at first }
{
    match first {
        Some(first) if first == number => None,
        _ => Some(fault(FaultCode::Duplicate, at)),
    }
}
