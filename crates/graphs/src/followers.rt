//! What follows a number of a graph.
ghost use Rattle.std.specs.Prelude.{◌≡◌, map};
ghost use Rattle.graphs.specs.Cycles.{followers as followers_of};

/// The numbers that follow this one; none where the graph doesn't have it.
pub(crate) fn followers(next: &[Vec<usize>], number: usize) -> &[usize]
    ensures { result.now ≡ followers_of (map (λ v. v.items) next.now) number }
{
    match next.get(number) {
        Some(list) => list,
        None => &[],
    }
}
