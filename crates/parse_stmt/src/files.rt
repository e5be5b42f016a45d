//! Files.
#![tactic(auto, using(parse_types::proofs::Readings::spelling))]

ghost use Rattle.std.specs.Prelude.{◌≡◌, [], None, true, map, length, IfOk};
ghost use Rattle.std.specs.List.{list_all};
ghost use Rattle.bal_tree.specs.DefPieces.{def_pieces, file_pieces, import_pieces};
ghost use Rattle.bal_tree.specs.DefRules.{def_is_formed, file_is_formed};
ghost use Rattle.bal_tree.specs.Pieces.{joined};
ghost use Rattle.bal_tree.specs.Spells.{Spells, kinds_of};
ghost use Rattle.parse_stmt.specs.Chosen.{AreChosen, IsChosen, led_in_defs};
ghost use Rattle.parse_stmt.specs.Reaches as spec;

use crate::reader::StmtReader;
use bal_base::{Memory, Token};
use bal_tree::{Def, FileTree, Import};
use parse_types::{optional, place};

impl StmtReader {
    /// The imports and the definitions that stand at the front of a file, as its tree.
    pub(crate) fn file_front(self, tokens: &[Token]) -> Result<(FileTree, &[Token]), Memory>
        ensures no_def { IfOk result (λ r. spec.def (length tokens.now) (kinds_of r.1.now) ≡ None) }
        ensures no_import { IfOk result (λ r. r.0.defs.items ≡ [] → spec.import (kinds_of r.1.now) ≡ None) }
        ensures formed { IfOk result (λ r. file_is_formed r.0 ≡ true) }
        ensures spells { IfOk result (λ r. Spells self.file (file_pieces r.0) tokens.now r.1.now) }
        ensures chosen { IfOk result (λ r. IsChosen r.0) }
    {
        let at = place(self.file, tokens);
        let (imports, behind) = self.imports(tokens)?;
        let (defs, rest) = self.defs(tokens.len(), behind)?;
        Ok((FileTree { imports, defs, at }, rest))
    }

    /// None or more imports.
    fn imports(self, tokens: &[Token]) -> Result<(Vec<Import>, &[Token]), Memory>
        ensures stops { IfOk result (λ r. spec.import (kinds_of r.1.now) ≡ None) }
        ensures spells { IfOk result (λ r. Spells self.file (joined (map import_pieces r.0.items)) tokens.now r.1.now) }
    {
        let mut imports = Vec::new(self.alloc);
        let mut rest = tokens;
        while let Some((next, after)) = optional(self.import(rest))? {
            imports.push(next)?;
            rest = after;
        }
        Ok((imports, rest))
    }

    /// None or more definitions.
    fn defs(self, room: usize, tokens: &[Token]) -> Result<(Vec<Def>, &[Token]), Memory>
        ensures stops { IfOk result (λ r. spec.def room (kinds_of r.1.now) ≡ None) }
        ensures formed { IfOk result (λ r. list_all def_is_formed r.0.items ≡ true) }
        ensures spells { IfOk result (λ r. Spells self.file (joined (map def_pieces r.0.items)) tokens.now r.1.now) }
        ensures chosen { IfOk result (λ r. AreChosen (led_in_defs r.0.items)) }
    {
        let mut defs = Vec::new(self.alloc);
        let mut rest = tokens;
        while let Some((next, after)) = optional(self.def(room, rest))? {
            defs.push(next)?;
            rest = after;
        }
        Ok((defs, rest))
    }
}
