//! What tokens are written to.
ghost use Rattle.std.specs.Prelude.{◌≡◌, ◌≤◌, ◌<◌, ◌++◌, [], ◌∷◌, ◌^◌, IfOk, length, take, vec_capacity};
ghost use Rattle.bal_tree.specs.Writing.{empty, put};

use bal_base::{Memory, TokenKind};
use std::alloc::Global;
use std::marker::Model;

/// Tokens in the order in which they are written. All are counted, and as many are kept as there is room for, so that
/// no write can fail.
#[derive(Drop)]
pub struct Output {
    tokens: Vec<TokenKind>,
    room: usize,
    count: usize,
}

impl Model for Output {
    ghost use Rattle.std.specs.Prelude.{◌≤◌, length, vec_capacity};
    ghost use Rattle.bal_tree.specs.Writing.{Written};

    ghost Value = { Written };

    ghost view = { λ o. record { tokens = o.tokens.items; room = o.room; count = o.count } };

    ghost invariant = { λ o. (length o.tokens.items ≤ o.room) × (o.room ≤ vec_capacity o.tokens) };
}

impl Output {
    /// An output with room for so many tokens.
    pub fn with_room(alloc: Global, room: usize) -> Result<Output, Memory>
        ensures nothing { IfOk result (λ o. o ≡ empty room) }
        ensures room { IfOk result (λ _. room < 2 ^ 63) }
    {
        Ok(Output {
            tokens: Vec::with_capacity(alloc, room)?,
            room,
            count: 0,
        })
    }

    /// Writes a token behind the others.
    #[tactic(auto, unfolding(crate::specs::Writing::put))]
    pub fn put(&mut self, token: TokenKind)
        ensures { self.new ≡ put token self.old }
    {
        self.count = self.count.saturating_add(1);
        keep(&mut self.tokens, self.room, token);
    }

    /// How many tokens were written, up to `usize::MAX`.
    pub fn count(&self) -> usize
        ensures { result ≡ self.now.count }
    {
        self.count
    }

    /// The tokens that were kept.
    pub fn into_tokens(self) -> Vec<TokenKind>
        ensures { result.items ≡ self.tokens }
    {
        self.tokens
    }
}

/// Pushes the token if the vector is shorter than the room that it has.
fn keep(tokens: &mut Vec<TokenKind>, room: usize, token: TokenKind)
    requires within { length tokens.old.items ≤ room }
    requires room { room ≤ vec_capacity tokens.old }
    ensures items { tokens.new.items ≡ take room (tokens.old.items ++ token ∷ []) }
    ensures within { length tokens.new.items ≤ room }
    ensures room { room ≤ vec_capacity tokens.new }
{
    if tokens.len() < room {
        let _ = tokens.push(token);
    }
}
