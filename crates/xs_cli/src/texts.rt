ghost use Rattle.std.specs.Prelude.{◌≡◌, ◌++◌, ◌∷◌, [], ◌+◌, OnOk, OnErr, option_map};
ghost use Rattle.xs_cli.specs.Machine.{name_at};
ghost use Rattle.std.specs.List.{position};
ghost use Rattle.std.specs.Str.{bytes_eq};

use js_value::Units;
use std::alloc::{AllocError, Global};
use std::marker::Model;

/// A list of texts: the strings that a module prints, or its names.
#[derive(Drop)]
pub struct Texts {
    items: Vec<Units>,
}

impl Model for Texts {
    ghost use Rattle.std.specs.Prelude.{ℕ, List};

    ghost Value = { List (List ℕ) };

    ghost view = { λ texts. texts.items.items };
}

impl Texts {
    /// The empty list. It takes no memory.
    pub fn new(alloc: Global) -> Texts
        ensures { result ≡ [] }
    {
        Texts {
            items: Vec::new(alloc),
        }
    }

    /// Adds a text at the end. Where memory runs out the list is as before.
    pub fn push(&mut self, text: Units) -> Result<(), AllocError>
        ensures ok { OnOk result (self.new ≡ self.old ++ text ∷ []) }
        ensures err { OnErr result (self.new ≡ self.old) }
    {
        self.items.push(text)?;
        Ok(())
    }

    /// The texts, from the first on.
    pub fn as_slice(&self) -> &[Units]
        ensures { result.now ≡ self.now }
    {
        self.items.as_slice()
    }
}

/// The text of a name's number, counted from 1.
pub fn name(names: &[Units], number: u16) -> Option<&[u16]>
    ensures { option_map (λ text. text.now) result ≡ name_at names.now number }
{
    let place = usize::from(number).checked_sub(1)?;
    let text = names.get(place)?;
    Some(text.as_slice())
}

/// The place of the text among the names.
pub fn place(names: &[Units], text: &[u16]) -> Option<usize>
    ensures { result ≡ position (λ name. bytes_eq name text.now) names.now }
{
    names.iter().position(|name| is_same(name.as_slice(), text))
}

fn is_same(a: &[u16], b: &[u16]) -> bool
    ensures { result ≡ bytes_eq a.now b.now }
{
    a == b
}
