//! What can be asked of types.
ghost use Rattle.std.specs.Prelude.{◌≡◌, ◌+◌, ◌<◌, ◌++◌, All, IfOk, OnOk, OnErr, length};
ghost use Rattle.bal_base.specs.Stops.{IfFault};
ghost use Rattle.type_model.specs.Places.{HasDistinctFields};
ghost use Rattle.type_model.specs.Defined.{IsDefined, IsDefinedGroup, IsEnv};
ghost use Rattle.type_model.specs.Inclusion.{AnswersSub, FindsShape, HasExactly, HaveSameShapes};
ghost use Rattle.type_model.specs.Parts.{StandsAt};
ghost use Rattle.type_model.specs.Application.{Applies, IsFunctionType, IsListType, NamesDefined};
ghost use Rattle.type_model.specs.Calls.{KeepsTypes, Without, Alone, Applied};

use crate::answers::{Answer, Apply, Keys, TypeLimit};
use crate::atoms::AtomDef;
use crate::basic::SemType;
use crate::env::{AtomLimit, TypeEnv};
use bal_base::{MOST_ATOMS, Memory, Shape, Stop};
use std::alloc::Global;

/// Types over atoms that can be added, and the questions about them. Only `add` changes the atoms, and it
/// keeps those that are there. Each call needs all atoms that its types name to be defined.
pub trait Types {
    ghost use Rattle.std.specs.Prelude.{List};
    ghost use Rattle.type_model.specs.declared.atoms.AtomDef.{AtomDef};
    ghost use Rattle.type_model.specs.declared.answers.TypeLimit.{TypeLimit};
    ghost use Rattle.type_model.specs.Calls.{Asked};

    /// The definitions of the atoms.
    ghost atoms: { Self → List AtomDef };

    /// Whether the questions to which a call leads, over these atoms, pass the limit.
    ghost passes: { List AtomDef → Asked → TypeLimit → Type 0 };

    /// The definitions of the atoms. Takes no memory.
    fn env(&self) -> &TypeEnv
        ensures { result.now ≡ atoms self.now };

    /// Numbers a group of atoms, which may name each other, from the number that it gives. `AtomLimit`
    /// comes exactly where there would be more than [`MOST_ATOMS`]. After a refusal the atoms are as before.
    /// Whatever it answers, each type is defined and has the shapes that it had.
    fn add(&mut self, alloc: Global, defs: Vec<AtomDef>) -> Result<u32, Stop<AtomLimit>>
        requires named { IsDefinedGroup (atoms self.old) defs.items }
        requires distinct { All HasDistinctFields defs.items }
        ensures first { IfOk result (λ first. first ≡ length (atoms self.old)) }
        ensures added { OnOk result (atoms self.new ≡ atoms self.old ++ defs.items) }
        ensures refused { OnErr result (atoms self.new ≡ atoms self.old) }
        ensures limit { IfFault result (λ _. MOST_ATOMS < length (atoms self.old) + length defs.items) }
        ensures env { IsEnv (atoms self.new) }
        ensures kept { KeepsTypes (atoms self.old) (atoms self.new) };

    /// Whether every shape of `s` is in `t`, or a shape of `s` that isn't.
    fn sub(&mut self, alloc: Global, s: &SemType, t: &SemType) -> Result<Answer, Stop<TypeLimit>>
        requires left { IsDefined (atoms self.old) s.now }
        requires right { IsDefined (atoms self.old) t.now }
        ensures atoms { atoms self.new ≡ atoms self.old }
        ensures answer { IfOk result (AnswersSub (atoms self.old) s.now t.now) }
        ensures limit { IfFault result (passes (atoms self.old) (Without s.now t.now)) };

    /// A shape of `t`, or `None` where there is none.
    fn has_shape(&mut self, alloc: Global, t: &SemType) -> Result<Option<Shape>, Stop<TypeLimit>>
        requires { IsDefined (atoms self.old) t.now }
        ensures atoms { atoms self.new ≡ atoms self.old }
        ensures found { IfOk result (FindsShape (atoms self.old) t.now) }
        ensures limit { IfFault result (passes (atoms self.old) (Alone t.now)) };

    /// The type whose shapes are exactly those that stand at such a key in a list or mapping shape of `t`,
    /// or, for `Results`, among the results of a future shape of `t`.
    fn member(
        &mut self,
        alloc: Global,
        t: &SemType,
        keys: &Keys,
    ) -> Result<SemType, Stop<TypeLimit>>
        requires { IsDefined (atoms self.old) t.now }
        ensures atoms { atoms self.new ≡ atoms self.old }
        ensures defined { IfOk result (IsDefined (atoms self.old)) }
        ensures shapes { IfOk result (λ m. HasExactly (atoms self.old) m (StandsAt (atoms self.old) t.now keys.now)) }
        ensures limit { IfFault result (passes (atoms self.old) (Alone t.now)) };

    /// The least type of the results that functions of `f` give to arguments in `args`, or arguments there
    /// that are outside the domain.
    fn apply(
        &mut self,
        alloc: Global,
        f: &SemType,
        args: &SemType,
    ) -> Result<Apply, Stop<TypeLimit>>
        requires f_defined { IsDefined (atoms self.old) f.now }
        requires args_defined { IsDefined (atoms self.old) args.now }
        requires functions { IsFunctionType (atoms self.old) f.now }
        requires lists { IsListType (atoms self.old) args.now }
        ensures atoms { atoms self.new ≡ atoms self.old }
        ensures defined { IfOk result (NamesDefined (atoms self.old)) }
        ensures applies { IfOk result (Applies (atoms self.old) f.now args.now) }
        ensures limit { IfFault result (passes (atoms self.old) (Applied f.now args.now)) };

    /// A type with the same shapes as `t`.
    fn compact(&mut self, alloc: Global, t: &SemType) -> Result<SemType, Memory>
        requires { IsDefined (atoms self.old) t.now }
        ensures atoms { atoms self.new ≡ atoms self.old }
        ensures defined { IfOk result (IsDefined (atoms self.old)) }
        ensures shapes { IfOk result (λ c. HaveSameShapes (atoms self.old) c t.now) };
}
