//! Atoms that were found, each once.
#![tactic(auto, using(crate::proofs::Noting::noting))]

ghost use Rattle.std.specs.Prelude.{◌≡◌, [], ◌∷◌, false, OnOk, Some, option_to_list, slice_get};
ghost use Rattle.inherent_atoms.specs.Found.{Notes};

use bal_base::Memory;

/// The atoms that were found so far.
#[derive(Drop)]
pub struct Found {
    /// Whether the atom with each number was found.
    pub marked: Vec<bool>,
    pub atoms: Vec<u32>,
}

impl Found {
    /// Whether an atom was found, where there is one.
    fn is_marked(&self, atom: u32) -> Option<bool>
        ensures { result ≡ slice_get self.now.marked.items atom }
    {
        self.marked.get(atom as usize).copied()
    }

    /// One more, which wasn't found yet.
    fn add(&mut self, atom: u32) -> Result<(), Memory>
        requires { slice_get self.now.marked.items atom ≡ Some false }
        ensures { OnOk result (Notes (atom ∷ []) self.old self.new) }
    {
        self.atoms.push(atom)?;
        self.marked[atom as usize] = true;
        Ok(())
    }

    /// Notes an atom, where it wasn't found yet. It answers want of memory also where there is no such atom.
    pub fn note(&mut self, atom: u32) -> Result<(), Memory>
        ensures { OnOk result (Notes (atom ∷ []) self.old self.new) }
    {
        match self.is_marked(atom) {
            Some(true) => Ok(()),
            Some(false) => self.add(atom),
            None => Err(Memory),
        }
    }

    /// Notes an atom, if there is one.
    pub fn note_if(&mut self, atom: Option<u32>) -> Result<(), Memory>
        ensures { OnOk result (Notes (option_to_list atom) self.old self.new) }
    {
        match atom {
            Some(atom) => self.note(atom),
            None => Ok(()),
        }
    }
}
