//! The open windows, lent one after the other.

ghost use Rattle.std.specs.Prelude.{◌≡◌, length};
ghost use Rattle.std.specs.Iterator.{at_most};
ghost use Rattle.std.specs.Map.Iter.{TakesFirst, deref};
ghost use Rattle.ns_windows.specs.Places.{open_of};

use crate::window::{BoxedWindow, Window};
use indexmap::map::Values;
use ns_types::WindowName;
use std::marker::Model;

/// Lends open windows, in the order of their opening. Contracts see the list of those that are left.
#[derive(Drop)]
pub struct OpenWindows<'a> {
    places: Values<'a, WindowName, Option<BoxedWindow>>,
}

impl<'a> Model for OpenWindows<'a> {
    ghost use Rattle.std.specs.Prelude.{List};
    ghost use Rattle.ns_windows.specs.declared.window.Window.{Window};
    ghost use Rattle.ns_windows.specs.Places.{open_of};

    ghost Value = { List Window };

    ghost view = { λ o. open_of o.places };
}

impl<'a> OpenWindows<'a> {
    /// The windows at these places.
    pub(crate) fn new(places: Values<'a, WindowName, Option<BoxedWindow>>) -> OpenWindows<'a>
        ensures { result ≡ open_of places.entry }
    {
        OpenWindows { places }
    }
}

impl<'a> Iterator for OpenWindows<'a> {
    type Item = &'a Window;

    ghost next_gives = { TakesFirst deref };

    ghost remaining = { λ s. at_most (length s) };

    fn next(&mut self) -> Option<&'a Window> {
        'places: while let Some(place) = self.places.next() {
            if let Some(window) = place {
                return Some(window.as_ref());
            }
        }
        None
    }
}
