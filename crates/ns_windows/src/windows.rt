//! The open windows of a shard: by name in the order of their opening, and by frame.

ghost use Rattle.std.specs.Prelude.{◌≡◌, [], ◌∷◌, ◌++◌, None, is_some, nat_le, map, option_map, IfOk, OnOk, OnErr, IsTrue, ◌↔◌};
ghost use Rattle.ns_calls.specs.Queries.{first};
ghost use Rattle.ns_windows.specs.Windows.{window_named, window_of_frame, new_window, count, added, addition, with_copy_named, with_copy_of, without};

use crate::counts::{Counts, count_at, count_down, count_up};
use crate::frame_key::{FrameKey, LentFrame};
use crate::iter::OpenWindows;
use crate::places::{
    Frames, Names, Sought, add_at, clear, first_from, name_at, place_of, push, put_name, take_at,
};
use crate::window::{Added, Addition, BoxedWindow, Window, added_by};
use indexmap::IndexMap;
use ns_calls::DataFrame;
use ns_types::{DevEui, Heard, Key, WindowName};
use std::alloc::{AllocError, Global};
use std::collections::HashMap;
use std::marker::Model;

// The memory of so many closed windows is kept.
const MOST_CLOSED: usize = 64;

/// Open windows, in the order of their opening.
#[derive(Drop)]
pub struct Windows {
    alloc: Global,
    /// The windows by name, in the order of their opening. A closed one leaves its place empty.
    names: Names,
    /// The place of the first window, or that behind the last.
    first: usize,
    /// The name of the window of each frame.
    frames: Frames,
    /// How many windows of each device are open.
    counts: Counts,
    /// Closed windows, in whose memory others are opened.
    closed: Vec<BoxedWindow>,
}

impl Model for Windows {
    ghost use Rattle.std.specs.Prelude.{List};
    ghost use Rattle.ns_windows.specs.declared.window.Window.{Window};
    ghost use Rattle.ns_windows.specs.Places.{opened, Holds};

    ghost Value = { List Window };

    ghost view = { λ w. opened w.names.entries };

    ghost invariant = { λ w. Holds w.names.entries w.first w.frames.entries w.counts.entries };
}

impl Windows {
    /// No windows.
    pub fn new(alloc: Global) -> Windows
        ensures { result ≡ [] }
    {
        Windows {
            alloc,
            names: IndexMap::new(alloc),
            first: 0,
            frames: IndexMap::new(alloc),
            counts: HashMap::new(alloc),
            closed: Vec::new(alloc),
        }
    }

    /// Whether a device has so many open windows.
    pub fn has_as_many(&self, eui: DevEui, limit: usize) -> bool
        ensures { result ≡ nat_le limit (count eui self.now) }
    {
        count_at(&self.counts, eui) >= limit
    }

    /// The name of the window that was opened first.
    pub fn oldest(&self) -> Option<WindowName>
        ensures { result ≡ option_map (λ w. w.name) (first self.now) }
    {
        name_at(&self.names, self.first)
    }

    /// Lends the windows, in the order of their opening.
    pub fn iter(&self) -> OpenWindows<'_>
        ensures { result ≡ self.now }
    {
        OpenWindows::new(self.names.values())
    }

    /// Whether these are the same windows, in one order.
    pub fn is_same(&self, other: &Windows) -> bool
        ensures { IsTrue result ↔ (self.now ≡ other.now) }
    {
        let (mut ours, mut theirs) = (self.iter(), other.iter());
        'ours: while let Some(window) = ours.next() {
            let Some(another) = theirs.next() else {
                return false;
            };
            if !window.is_same(another) {
                return false;
            }
        }
        theirs.next().is_none()
    }

    /// The names of the windows, in the order of their opening. `NoMemory` (`AllocError`) where a growth was refused.
    pub fn names(&self, alloc: Global) -> Result<Vec<WindowName>, AllocError>
        ensures { IfOk result (λ v. v.items ≡ map (λ w. w.name) self.now) }
    {
        let mut names = Vec::with_capacity(alloc, self.names.len())?;
        for at in 0..self.names.len() {
            let Some((_, place)) = self.names.get_index(at) else {
                unreachable!()
            };
            put_name(&mut names, place)?;
        }
        Ok(names)
    }

    /// Whether a window of this name is open.
    pub fn is_open(&self, name: &WindowName) -> bool
        ensures { result ≡ is_some (window_named name.now self.now) }
    {
        place_of(&self.names, self.first, &self.frames, Sought::Name(name)).is_some()
    }

    /// The name of the window of a frame of these bytes.
    pub fn find(&self, frame: &[u8]) -> Option<WindowName>
        ensures { result ≡ option_map (λ w. w.name) (window_of_frame frame.now self.now) }
    {
        let name = self.frames.get(LentFrame(frame))?;
        Some(*name)
    }

    /// How many windows of a device are open.
    pub fn count(&self, eui: DevEui) -> usize
        ensures { result ≡ count eui self.now }
    {
        count_at(&self.counts, eui)
    }

    /// Adds a copy to the window of a name, where there is one, and where it has fewer than 16.
    pub fn add_copy(&mut self, name: &WindowName, heard: &Heard) -> Added
        ensures result { result ≡ added (window_named name.now self.old) }
        ensures windows { self.new ≡ with_copy_named name.now heard.now self.old }
    {
        let Some(place) = place_of(&self.names, self.first, &self.frames, Sought::Name(name)) else {
            return Added::NoWindow;
        };
        added_by(add_at(&mut self.names, place, heard))
    }

    /// Adds a copy to the window of a frame of equal bytes, where there is one, and where it has fewer than 16.
    pub fn add_copy_of(&mut self, frame: &DataFrame, heard: &Heard) -> Option<Addition>
        ensures result { result ≡ option_map addition (window_of_frame frame.now self.old) }
        ensures windows { self.new ≡ with_copy_of frame.now heard.now self.old }
    {
        let place = place_of(
            &self.names,
            self.first,
            &self.frames,
            Sought::Frame(frame.bytes()),
        )?;
        add_at(&mut self.names, place, heard)
    }

    /// Adds a window at the end. Where the growth is refused, nothing has changed.
    #[inline(always)]
    pub fn put(&mut self, window: Window) -> Result<(), AllocError>
        requires name { window_named window.name self.old ≡ None }
        requires frame { window_of_frame window.frame self.old ≡ None }
        ensures ok { OnOk result (self.new ≡ self.old ++ window ∷ []) }
        ensures err { OnErr result (self.new ≡ self.old) }
    {
        let window = BoxedWindow::new(self.alloc, window)?;
        self.put_boxed(window)
    }

    /// Adds a window with its first copy and the keys of its session at the end, in the memory of a closed one where there is one. Where the
    /// growth is refused, nothing has changed.
    pub fn open(
        &mut self,
        name: &WindowName,
        frame: &DataFrame,
        heard: &Heard,
        nwk: Key,
        app: Option<Key>,
    ) -> Result<(), AllocError>
        requires name { window_named name.now self.old ≡ None }
        requires frame { window_of_frame frame.now self.old ≡ None }
        ensures ok { OnOk result (self.new ≡ self.old ++ new_window frame.now heard.now name.now (nwk, app) ∷ []) }
        ensures err { OnErr result (self.new ≡ self.old) }
    {
        let Some(mut window) = self.closed.pop() else {
            self.closed.reserve(MOST_CLOSED)?;
            let window = BoxedWindow::opened(self.alloc, name, frame, heard, nwk, app)?;
            return self.put_boxed(window);
        };
        window.reopen(name, frame, heard, nwk, app);
        self.put_boxed(window)
    }

    /// Keeps the memory of a closed window for one that is opened later, where there is room for it. It allocates nothing.
    pub fn reuse(&mut self, window: BoxedWindow)
        ensures { self.new ≡ self.old }
    {
        if self.closed.len() < self.closed.capacity() {
            self.closed.push_reserved(window);
        }
    }

    // Adds a window at the end. Where the growth is refused, nothing has changed.
    #[inline(always)]
    fn put_boxed(&mut self, window: BoxedWindow) -> Result<(), AllocError>
        requires name { window_named window.name self.old ≡ None }
        requires frame { window_of_frame window.frame self.old ≡ None }
        ensures ok { OnOk result (self.new ≡ self.old ++ window ∷ []) }
        ensures err { OnErr result (self.new ≡ self.old) }
    {
        let name = window.as_ref().name;
        self.first = clear(&mut self.names, self.first, &name);
        self.names.reserve(1)?;
        self.counts.reserve(1)?;
        let frame = FrameKey::new(self.alloc, window.as_ref().frame.bytes())?;
        self.frames.insert(frame, name)?;
        count_up(&mut self.counts, name.eui);
        push(&mut self.names, window);
        Ok(())
    }

    /// Removes and gives the window of a name. It allocates nothing.
    pub fn take(&mut self, name: &WindowName) -> Option<Window>
        ensures result { result ≡ window_named name.now self.old }
        ensures windows { self.new ≡ without name.now self.old }
    {
        Some(self.take_boxed(name)?.into_inner())
    }

    /// The same, in the memory of the window.
    #[inline(always)]
    pub fn take_boxed(&mut self, name: &WindowName) -> Option<BoxedWindow>
        ensures result { result ≡ window_named name.now self.old }
        ensures windows { self.new ≡ without name.now self.old }
    {
        let place = place_of(&self.names, self.first, &self.frames, Sought::Name(name))?;
        let window = take_at(&mut self.names, place)?;
        let frame = window.as_ref().frame.bytes();
        self.frames.swap_remove(LentFrame(frame));
        count_down(&mut self.counts, name.eui);
        self.first = first_from(&self.names, self.first);
        Some(window)
    }
}
