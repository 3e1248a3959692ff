// The strings one after another.
ghost use Rattle.std.specs.Iterator.{YieldsFirstBy, item_count};

use std::marker::Model;

// The strings that are left.
#[derive(Drop)]
pub struct Rows<'a> {
    pub(crate) set: &'a [u8],
    pub(crate) places: &'a [usize],
    pub(crate) width: usize,
}

impl<'a> Model for Rows<'a> {
    ghost use Rattle.std.specs.Prelude.{ℕ, List};
    ghost use Rattle.umi_rows.specs.Rows.{EachFits, rows_at};

    ghost Value = { List (List ℕ) };

    ghost view = { λ r. rows_at r.width r.set.now r.places.now };

    ghost invariant = { λ r. EachFits r.width r.set.now r.places.now };
}

impl<'a> Iterator for Rows<'a> {
    type Item = &'a [u8];

    ghost next_gives = { YieldsFirstBy (λ row. row.now) (λ rest. rest) };

    ghost remaining = { item_count (λ rest. rest) };

    fn next(&mut self) -> Option<&'a [u8]> {
        let (place, others) = self.places.split_first()?;
        self.places = others;
        let start = *place + 1;
        Some(&self.set[start..start + self.width])
    }
}
