// The contents of all instances.
ghost use Rattle.std.specs.Prelude.{◌≡◌, ◌≢◌, ℕ, ◌+◌, ◌*◌, ◌<◌, ◌≤◌, length, slice_index_or};
ghost use Rattle.std.specs.Prelude.{slice_index, None, Some, OnOk, OnErr, IfSome, vec_len};
ghost use Rattle.ibos_kinds.specs.declared.names.Instance.{Instance};
ghost use Rattle.ibos_kinds.specs.Screens.{content_rows, columns, cell_after};
ghost use Rattle.ibos_frame.specs.ScreenStates.{content_in, pixel_in};
ghost use Rattle.ibos_frame.specs.ScreenStates as spec;

use crate::content::Content;
use ibos_kinds::{Instance, Memory};
use std::alloc::Global;
use std::marker::Model;

/// The contents of the instances that were added and not ended, found by the instance's place.
#[derive(Drop)]
pub(crate) struct Contents {
    places: Vec<Option<Content>>,
}

impl Model for Contents {
    ghost use Rattle.std.specs.Prelude.{ℕ, List, Option};

    ghost Value = { List (Option (List ℕ)) };

    ghost view = { λ c. c.places.items };
}

impl Contents {
    /// No instance has a content. Takes no memory.
    pub(crate) fn new(alloc: Global) -> Contents
        ensures { (q : Instance) → content_in result q ≡ None }
    {
        Contents {
            places: Vec::new(alloc),
        }
    }

    /// Gives an instance a content.
    pub(crate) fn begin(&mut self, who: Instance, content: Content) -> Result<(), Memory>
        ensures own { OnOk result (content_in self.new who ≡ Some content) }
        ensures others { OnOk result ((q : Instance) → q ≢ who → content_in self.new q
            ≡ content_in self.old q) }
        ensures err { OnErr result (self.new ≡ self.old) }
    {
        let place = place_of(who);
        reach(&mut self.places, place)?;
        self.places[place] = Some(content);
        Ok(())
    }

    /// Gives up an instance's content.
    pub(crate) fn end(&mut self, who: Instance)
        requires { content_in self.old who ≢ None }
        ensures own { content_in self.new who ≡ None }
        ensures others { (q : Instance) → q ≢ who → content_in self.new q ≡ content_in self.old q }
    {
        self.places[place_of(who)] = None;
    }

    /// The pixels of an instance's content.
    pub(crate) fn pixels(&self, who: Instance) -> &[u8]
        requires { content_in self.now who ≢ None }
        ensures value { content_in self.now who ≡ Some result.now }
        ensures count { length result.now ≡ 1760 }
    {
        match &self.places[place_of(who)] {
            Some(content) => content.pixels(),
            None => unreachable!(),
        }
    }

    /// Writes a region of an instance's content.
    pub(crate) fn draw(
        &mut self,
        who: Instance,
        row: usize,
        col: usize,
        height: usize,
        width: usize,
        pixels: &[u8],
    )
        requires open { content_in self.old who ≢ None }
        requires rows { row + height ≤ content_rows }
        requires columns { col + width ≤ columns }
        requires count { length pixels.now ≡ height * width }
        ensures open { content_in self.new who ≢ None }
        ensures own { (r c : ℕ) → c < 80 → pixel_in (content_in self.new who) r c
            ≡ cell_after row col height width pixels.now r c
            (pixel_in (content_in self.old who) r c) }
        ensures size { IfSome (content_in self.new who) (λ pixels. length pixels ≡ 1760) }
        ensures others { (q : Instance) → q ≢ who → content_in self.new q ≡ content_in self.old q }
    {
        match &mut self.places[place_of(who)] {
            Some(content) => content.draw(row, col, height, width, pixels),
            None => unreachable!(),
        }
    }
}

// Where an instance's content stands: those of the tabs' first instances come first.
fn place_of(who: Instance) -> usize
    ensures place { result ≡ spec.place_of who }
    ensures tab { who.tab < 256 }
    ensures bound { result < 65536 }
{
    256 * who.ord as usize + who.tab as usize
}

// Makes the table long enough for a place.
fn reach(places: &mut Vec<Option<Content>>, place: usize) -> Result<(), Memory>
    requires { place < 65536 }
    ensures ok { OnOk result (place < vec_len places.new) }
    ensures same { (k : ℕ) → slice_index_or places.new.items k None
        ≡ slice_index_or places.old.items k None }
    ensures err { OnErr result (places.new.items ≡ places.old.items) }
{
    let len = places.len();
    if place < len {
        return Ok(());
    }
    places.reserve(place + 1 - len)?;
    'filled: for _place in len..place + 1 {
        places.push_reserved(None);
    }
    Ok(())
}
