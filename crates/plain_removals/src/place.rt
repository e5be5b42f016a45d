//! Places of lists.
ghost use Rattle.std.specs.Prelude.{◌≡◌};
ghost use Rattle.plain_removals.specs.Removals as removals;

use value_model::Value;

/// A place of a list.
#[derive(Clone, Copy)]
pub enum Place {
    /// That of the last item.
    Last,
    /// This one.
    At(i64),
}

/// The place in a list with these items, where it is one.
pub fn place_in(place: Place, items: &[Value]) -> Option<usize>
    ensures { result ≡ removals.place_in place items.now }
{
    match place {
        Place::Last => match items.len() {
            0 => None,
            length => Some(length - 1),
        },
        Place::At(i) => {
            if i < 0 {
                return None;
            }
            Some(i as usize)
        }
    }
}
