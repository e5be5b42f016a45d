//! Laws of steps that call the library to change structures. These calls do nothing: their clauses are laws.
ghost use Rattle.code_keeping_changes.specs.Laws.{PushesAreDone, RemovalsAreDone};

/// What a frame of well-typed code asks for fits, whatever comes, and something comes, where it calls the library to take an item out of
/// a list or a member out of a mapping, or to store values behind the last item of a list.
pub fn changes_are_done()
    ensures removals { RemovalsAreDone }
    ensures pushes { PushesAreDone }
{}
