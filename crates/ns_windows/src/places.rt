//! Windows by name, each at a place, in the order of their opening.

ghost use Rattle.std.specs.Prelude.{◌≡◌, true, false, ◌<◌, ◌≤◌, ◌+◌, ◌^◌, ◌++◌, ◌∷◌, [], None, Some, find, drop, length, map, option_map, option_to_list, is_some, IfSome, IfNone, OnOk};
ghost use Rattle.std.specs.HashMap.{spare, get, values};
ghost use Rattle.indexmap.specs.IndexMap.{set_value_at};
ghost use Rattle.ns_types.specs.Identity.{same_window};
ghost use Rattle.ns_windows.specs.Windows.{with_copy, addition, is_named, window_named, window_of_frame};
ghost use Rattle.ns_windows.specs.Places.{window_at, open_of, opened, leading, passes, passes_at, AreNamed, Agree, IsDense, IsSparse};

use crate::frame_key::{FrameKey, LentFrame};
use crate::window::{Addition, BoxedWindow, Window};
use indexmap::IndexMap;
use ns_types::{Heard, WindowName};
use std::alloc::AllocError;

/// The windows by name, in the order of their opening, each at a place. A window that was closed leaves its place empty.
pub(crate) type Names = IndexMap<WindowName, Option<BoxedWindow>>;

/// The name of the open window of each frame.
pub(crate) type Frames = IndexMap<FrameKey, WindowName>;

// With fewer places the empty ones stay, however few windows are open.
const FEW: usize = 64;

/// What a window is found by.
#[derive(Clone, Copy)]
pub(crate) enum Sought<'a> {
    Name(&'a WindowName),
    Frame(&'a [u8]),
}

// Whether a window is the one that is sought.
fn is_sought(sought: Sought, window: &Window) -> bool
    ensures { result ≡ passes sought.entry window.now }
{
    match sought {
        Sought::Name(name) => window.name == *name,
        Sought::Frame(frame) => window.frame.bytes() == frame,
    }
}

// Whether the window that is sought is at a place.
fn is_at(names: &Names, place: usize, sought: Sought) -> bool
    ensures { result ≡ passes_at (passes sought.entry) place (values names.now) }
{
    let Some((_, Some(window))) = names.get_index(place) else {
        return false;
    };
    is_sought(sought, window.as_ref())
}

/// The name of the window at a place.
pub(crate) fn name_at(names: &Names, place: usize) -> Option<WindowName>
    ensures { result ≡ option_map (λ w. w.name) (window_at (values names.now) place) }
{
    let Some((_, Some(window))) = names.get_index(place) else {
        return None;
    };
    Some(window.as_ref().name)
}

// Whether a window is at a place.
fn is_open_at(names: &Names, place: usize) -> bool
    ensures { result ≡ is_some (window_at (values names.now) place) }
{
    matches!(names.get_index(place), Some((_, Some(_))))
}

// The place of the window of a name, where it is known at all.
fn place_known(names: &Names, name: &WindowName) -> Option<usize>
    requires { AreNamed names.now.entries }
    ensures found { IfSome result (λ place. passes_at (is_named name.now) place (values names.now) ≡ true) }
    ensures none { IfNone result (window_named name.now (opened names.now.entries) ≡ None) }
{
    let place = names.get_index_of(name)?;
    if !is_at(names, place, Sought::Name(name)) {
        return None;
    }
    Some(place)
}

/// The place of the window that is sought, of which the first window is at this one.
pub(crate) fn place_of(
    names: &Names,
    first: usize,
    frames: &Frames,
    sought: Sought,
) -> Option<usize>
    requires { Agree names.now.entries frames.now.entries }
    ensures found { IfSome result (λ place. passes_at (passes sought.entry) place (values names.now) ≡ true) }
    ensures none { IfNone result (find (passes sought.entry) (opened names.now.entries) ≡ None) }
{
    match sought {
        Sought::Name(name) => {
            // Windows are mostly closed in the order of their opening.
            if is_at(names, first, sought) {
                return Some(first);
            }
            place_known(names, name)
        }
        Sought::Frame(frame) => {
            // A copy mostly comes right behind the first one.
            let last = names.len().saturating_sub(1);
            if is_at(names, last, sought) {
                return Some(last);
            }
            let name = frames.get(LentFrame(frame))?;
            place_known(names, name)
        }
    }
}

// Adds a copy to the window that stands here.
fn add_here(place: &mut Option<BoxedWindow>, heard: &Heard) -> Option<Addition>
    ensures result { result ≡ option_map addition place.old }
    ensures window { place.new ≡ option_map (with_copy heard.now) place.old }
{
    let Some(window) = place else {
        return None;
    };
    Some(window.add_copy(heard))
}

/// Adds a copy to the window at a place, where it has fewer than 16.
pub(crate) fn add_at(names: &mut Names, place: usize, heard: &Heard) -> Option<Addition>
    ensures result { result ≡ option_map addition (window_at (values names.old) place) }
    ensures entries { names.new.entries ≡ set_value_at names.old.entries place (option_map (with_copy heard.now) (window_at (values names.old) place)) }
{
    add_here(names.get_index_mut(place)?, heard)
}

/// Takes the window at a place out, which is empty then.
pub(crate) fn take_at(names: &mut Names, place: usize) -> Option<BoxedWindow>
    ensures result { result ≡ window_at (values names.old) place }
    ensures entries { names.new.entries ≡ set_value_at names.old.entries place None }
{
    let Some(window) = names.get_index_mut(place) else {
        return None;
    };
    window.take()
}

/// Puts the name of the window that stands here behind others, if there is one.
pub(crate) fn put_name(
    names: &mut Vec<WindowName>,
    place: &Option<BoxedWindow>,
) -> Result<(), AllocError>
    ensures { OnOk result (names.new.items ≡ names.old.items ++ map (λ w. w.name) (option_to_list place.now)) }
{
    let Some(window) = place else {
        return Ok(());
    };
    names.push(window.as_ref().name)?;
    Ok(())
}

/// The place of the first window from a place on, or else that behind the last.
pub(crate) fn first_from(names: &Names, from: usize) -> usize
    requires { from ≤ length names.now.entries }
    ensures { result ≡ from + leading (drop from (values names.now)) }
{
    for at in from..names.len() {
        if is_open_at(names, at) {
            return at;
        }
    }
    names.len()
}

// Removes all empty places.
fn remove_empty(names: &mut Names)
    requires { AreNamed names.old.entries }
    ensures named { AreNamed names.new.entries }
    ensures windows { opened names.new.entries ≡ opened names.old.entries }
    ensures first { leading (values names.new) ≡ 0 }
    ensures fewer { length names.new.entries ≤ length names.old.entries }
    ensures full { length names.new.entries ≡ length (opened names.new.entries) }
    ensures absent { (name : _) → window_named name (opened names.old.entries) ≡ None → get same_window names.new name ≡ None }
{
    names.retain(|_, window| window.is_some());
}

// Whether the room is full, with 64 places or more, and fewer of them have a window than are empty.
fn is_sparse(names: &Names) -> bool
    ensures fits { length names.now.entries < 2 ^ 63 }
    ensures sparse { result ≡ true → IsSparse (spare names.now) names.now.entries }
    ensures dense { result ≡ false → IsDense (spare names.now) names.now.entries }
{
    if names.len() < FEW || names.len() < names.capacity() {
        return false;
    }
    let mut windows = 0;
    for at in 0..names.len() {
        if is_open_at(names, at) {
            windows += 1;
        }
    }
    windows < names.len().saturating_sub(windows)
}

/// Removes the empty places where the room is full of them, or where one is of this name. The place of the first window.
pub(crate) fn clear(names: &mut Names, first: usize, name: &WindowName) -> usize
    requires named { AreNamed names.old.entries }
    requires first { first ≡ leading (values names.old) }
    ensures named { AreNamed names.new.entries }
    ensures first { result ≡ leading (values names.new) }
    ensures windows { opened names.new.entries ≡ opened names.old.entries }
    ensures absent { window_named name.now (opened names.old.entries) ≡ None → get same_window names.new name.now ≡ None }
    ensures fits { length names.new.entries < 2 ^ 63 }
    ensures dense { IsDense (spare names.new) names.new.entries }
{
    if !is_sparse(names) && !names.contains_key(name) {
        return first;
    }
    remove_empty(names);
    0
}

/// Adds a window behind the others. It takes no memory.
pub(crate) fn push(names: &mut Names, window: BoxedWindow)
    requires room { 0 < spare names.old }
    requires absent { get same_window names.old window.name ≡ None }
    requires named { AreNamed names.old.entries }
    ensures entries { names.new.entries ≡ names.old.entries ++ (window.name, Some window) ∷ [] }
    ensures named { AreNamed names.new.entries }
{
    let name = window.as_ref().name;
    let Ok(_) = names.insert(name, Some(window)) else {
        unreachable!()
    };
}
