//! Lists of cells, linked by one table.

ghost use Rattle.std.specs.Prelude.{◌≡◌, ◌≢◌, ◌+◌, ◌-◌, ◌∷◌, ◌<◌, ◌≤◌, [], IfNone, IfSome, OnOk, OnErr};
ghost use Rattle.ax_watch.specs.Lists.{ListsState, list_count, cell_count, list_in, IsIdle, Puts, Takes, Moves, Pours};

use std::alloc::{AllocError, Global};
use std::marker::Model;

/// Lists of cells, no cell in two of them. Lists and cells are numbered from 0.
#[derive(Drop)]
pub struct Lists {
    /// Of each list one more than its first cell, or 0 where it has none.
    first: Vec<usize>,
    /// Of each cell one more than the cell behind it, or 0 where it is the last.
    next: Vec<usize>,
    room: usize,
}

impl Model for Lists {
    ghost use Rattle.std.specs.Prelude.{◌+◌, ◌≤◌, length, vec_len};
    ghost use Rattle.std.specs.Vec.{vec_capacity};
    ghost use Rattle.ax_watch.specs.Lists.{ListsState, AreLinked, list_of};

    ghost Value = { ListsState };

    ghost view = { λ s. record {
      first = s.first.items;
      next = s.next.items;
      room = s.room;
    } };

    ghost invariant = { λ s. record {
      linked : AreLinked s.first.items s.next.items (list_of s.first.items s.next.items);
      fit : vec_len s.next + s.room ≤ vec_capacity s.next;
    } };
}

impl Lists {
    /// No lists, no cells, and no room.
    pub fn new(alloc: Global) -> Lists
        ensures none { (l : _) → list_in result l ≡ [] }
        ensures lists { list_count result ≡ 0 }
        ensures cells { cell_count result ≡ 0 }
        ensures room { result.room ≡ 0 }
    {
        Lists {
            first: Vec::new(alloc),
            next: Vec::new(alloc),
            room: 0,
        }
    }

    /// Makes it at least `count` lists, with no cells in the new ones.
    pub fn widen(&mut self, count: usize) -> Result<(), AllocError>
        ensures kept { (l : _) → list_in self.new l ≡ list_in self.old l }
        ensures done { OnOk result (count ≤ list_count self.new) }
        ensures more { list_count self.old ≤ list_count self.new }
        ensures cells { cell_count self.new ≡ cell_count self.old }
        ensures room { self.new.room ≡ self.old.room }
    {
        if self.first.len() < count {
            self.first.resize(count, 0)?;
        }
        Ok(())
    }

    /// Makes room for at least so many cells.
    pub fn reserve(&mut self, more: usize) -> Result<(), AllocError>
        ensures kept { (l : _) → list_in self.new l ≡ list_in self.old l }
        ensures lists { list_count self.new ≡ list_count self.old }
        ensures cells { cell_count self.new ≡ cell_count self.old }
        ensures done { OnOk result (more ≤ self.new.room) }
        ensures room { self.old.room ≤ self.new.room }
    {
        self.next.reserve(more)?;
        if self.room < more {
            self.room = more;
        }
        Ok(())
    }

    /// One cell more, which is in no list, in the room that was made for it.
    pub fn grow(&mut self)
        requires { 0 < self.old.room }
        ensures kept { (l : _) → list_in self.new l ≡ list_in self.old l }
        ensures lists { list_count self.new ≡ list_count self.old }
        ensures cells { cell_count self.new ≡ cell_count self.old + 1 }
        ensures room { self.new.room ≡ self.old.room - 1 }
        ensures idle { IsIdle self.new (cell_count self.old) }
    {
        self.next.push_reserved(0);
        self.room -= 1;
    }

    /// Puts a cell that is in no list before the others of a list.
    pub fn push(&mut self, list: usize, cell: usize)
        requires list { list < list_count self.old }
        requires cell { cell < cell_count self.old }
        requires idle { IsIdle self.old cell }
        ensures { Puts list cell self.old self.new }
    {
        self.next[cell] = self.first[list];
        self.first[list] = cell + 1;
    }

    /// Takes the first cell out of a list.
    pub fn pop(&mut self, list: usize) -> Option<usize>
        requires list { list < list_count self.old }
        ensures none { IfNone result (list_in self.old list ≡ []) }
        ensures kept { IfNone result (self.new ≡ self.old) }
        ensures some { IfSome result (λ cell. Takes list cell self.old self.new) }
    {
        let link = self.first[list];
        if link == 0 {
            return None;
        }
        let cell = link - 1;
        self.first[list] = self.next[cell];
        Some(cell)
    }

    /// Moves all cells of one list to another that has none.
    pub fn move_all(&mut self, from: usize, to: usize)
        requires from { from < list_count self.old }
        requires to { to < list_count self.old }
        requires differ { from ≢ to }
        requires none { list_in self.old to ≡ [] }
        ensures { Moves from to self.old self.new }
    {
        self.first[to] = self.first[from];
        self.first[from] = 0;
    }

    /// Moves all cells of one list to another, one by one.
    pub fn pour(&mut self, from: usize, to: usize)
        requires from { from < list_count self.old }
        requires to { to < list_count self.old }
        requires differ { from ≢ to }
        ensures { Pours from to self.old self.new }
    {
        'cells: loop {
            match self.pop(from) {
                None => return,
                Some(cell) => self.push(to, cell),
            }
        }
    }
}
