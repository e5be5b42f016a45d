//! Single tokens.
ghost use Rattle.bal_tree.specs.Pieces.{key as key_piece, sign as sign_piece, key_if as key_if_pieces, sign_if as sign_if_pieces};
ghost use Rattle.bal_tree.specs.Writing.{Writes};

use super::output::Output;
use bal_base::{Keyword, Sign, TokenKind};

pub fn key(out: &mut Output, k: Keyword)
    ensures { Writes out.old (key_piece k) out.new }
{
    out.put(TokenKind::Keyword(k));
}

/// The keyword, if it is there.
pub fn key_if(out: &mut Output, there: bool, k: Keyword)
    ensures { Writes out.old (key_if_pieces there k) out.new }
{
    if there {
        key(out, k);
    }
}

pub fn sign(out: &mut Output, s: Sign)
    ensures { Writes out.old (sign_piece s) out.new }
{
    out.put(TokenKind::Sign(s));
}

/// The sign, if it is there.
pub fn sign_if(out: &mut Output, there: bool, s: Sign)
    ensures { Writes out.old (sign_if_pieces there s) out.new }
{
    if there {
        sign(out, s);
    }
}
