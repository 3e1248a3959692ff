// A script: items of three bytes each.
ghost use Rattle.std.specs.Prelude.{◌≡◌};
ghost use Rattle.export_scripts.specs.Script.{items, is_item, is_script, questions};

use crate::item::Item;

// The items of a script in turn. One or two bytes that are left over are none.
// kept: no plainer: nothing compares or prints it
#[derive(Clone, Copy)]
pub struct Items<'a>(pub &'a [u8]);

impl<'a> Iterator for Items<'a> {
    ghost use Rattle.std.specs.Iterator.{YieldsFirst, item_count};

    type Item = Item;

    ghost next_gives = { YieldsFirst (λ s. items s.0.now) };

    ghost remaining = { item_count (λ s. items s.0.now) };

    #[tactic(auto, unfolding(crate::specs::Script::items))]
    fn next(&mut self) -> Option<Item> {
        let (item, rest) = self.0.split_first_chunk()?;
        self.0 = rest;
        Some(Item::from(*item))
    }
}

#[tactic(auto, unfolding(crate::specs::Script::is_item))]
fn is_item(most: u8, kind: u8, a: u8) -> bool
    ensures { result ≡ is_item most kind a }
{
    if kind == 2 { a <= 1 } else { kind <= most }
}

// Whether all of it is items of kinds up to that.
// kept: no plainer: a rule's byte and what is left at the end decide, and `Items` has neither
#[tactic(auto, unfolding(crate::specs::Script::is_script))]
pub fn is_script(most: u8, script: &[u8]) -> bool
    ensures { result ≡ is_script most script.now }
{
    let mut rest = script;
    while let [kind, a, _, others @ ..] = rest {
        if !is_item(most, *kind, *a) {
            return false;
        }
        rest = others;
    }
    rest.is_empty()
}

// How many reports it asks for.
pub fn questions_in(script: &[u8]) -> usize
    ensures { result ≡ questions (items script.now) }
{
    Items(script)
        .filter(|item| matches!(item, Item::Question(_)))
        .count()
}
