//! What is seen of the function `main` where it is written.
ghost use Rattle.std.specs.Prelude.{◌≡◌, ◌↔◌, IsTrue, true};
ghost use Rattle.std.specs.Char.{is_ascii};
ghost use Rattle.std.specs.List.{list_all};
ghost use Rattle.name_resolution.specs.MainForm.{main_name, may_be_main as may_be_main_of, takes_words as takes_words_of};
ghost use Rattle.type_model.specs.Places.{is_same_text};

use crate::results::gives_more_if;
use crate::string_words::type_is_string;
use bal_base::Name;
use bal_tree::{FunctionDef, Param};

/// Whether the name is `main`.
pub fn is_main(name: &Name) -> bool
    ensures { result ≡ is_same_text name.now main_name }
{
    is_word(name, "main")
}

/// Whether the name is this word.
fn is_word(name: &Name, word: &str) -> bool
    requires { list_all is_ascii word.now ≡ true }
    ensures { IsTrue result ↔ (name.now ≡ word.now) }
{
    name.as_str() == word
}

/// Whether a function may be `main`: it is public, has no parameter or `string...` alone, and its result may be an error or nil
/// alone.
pub(crate) fn may_be_main(f: &FunctionDef) -> bool
    ensures { result ≡ may_be_main_of f.now }
{
    f.public
        && f.params.params.is_empty()
        && takes_words(&f.params.rest)
        && !gives_more_if(&f.result)
}

fn takes_words(rest: &Option<Param>) -> bool
    ensures { result ≡ takes_words_of rest.now }
{
    match rest {
        None => true,
        Some(p) => type_is_string(&p.ty),
    }
}
