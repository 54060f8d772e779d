//! Memory that was taken for pages and for the numbers of one list.
ghost use Rattle.std.specs.Prelude.{◌≡◌, ◌-◌, ◌<◌, ◌≤◌, [], length, vec_len, vec_capacity, IfOk};

use crate::page::{Blank, Page};
use std::alloc::{AllocError, Global};
use std::marker::Model;

/// Memory for pages, and for the numbers of one list over pages. What is left of it may be dropped.
#[derive(Drop)]
pub struct PageRoom<E> {
    blanks: Vec<Blank<E>>,
    list: ListMemory<E>,
}

/// Memory for the numbers of a list's pages, and for the pages that end with it.
#[derive(Drop)]
pub(crate) struct ListMemory<E> {
    pub(crate) numbers: Vec<u32>,
    pub(crate) ended: Vec<Page<E>>,
    pub(crate) ghost no_number: { vec_len numbers ≡ 0 },
    pub(crate) ghost none_ended: { vec_len ended ≡ 0 },
    pub(crate) ghost as_many: { vec_capacity numbers ≤ vec_capacity ended },
}

impl<E> Model for PageRoom<E> {
    ghost use Rattle.std.specs.Prelude.{vec_len, vec_capacity};
    ghost use Rattle.vv_map.specs.Rooms.{RoomState};

    ghost Value = { RoomState };

    ghost view = { λ a. record { pages = vec_len a.blanks; numbers = vec_capacity a.list.numbers } };
}

impl<E: Copy> ListMemory<E> {
    fn new(alloc: Global, pages: usize) -> Result<ListMemory<E>, AllocError>
        ensures { IfOk result (λ list. vec_capacity list.numbers ≡ pages) }
    {
        let numbers = Vec::with_capacity(alloc, pages)?;
        let ended = Vec::with_capacity(alloc, pages)?;
        Ok(ListMemory { numbers, ended })
    }
}

impl<E: Copy> PageRoom<E> {
    /// Memory for so many pages, and for the numbers of a list of as many.
    pub(crate) fn new(alloc: Global, pages: u32) -> Result<PageRoom<E>, AllocError>
        ensures { IfOk result (λ room. room ≡ record { pages = pages; numbers = pages }) }
    {
        let list = ListMemory::new(alloc, pages as usize)?;
        let blanks = blanks(alloc, pages)?;
        Ok(PageRoom { blanks, list })
    }

    /// Takes the memory of one page out.
    pub(crate) fn take_blank(&mut self) -> Blank<E>
        requires { 1 ≤ self.old.pages }
        ensures { self.new ≡ record self.old { pages = self.old.pages - 1 } }
    {
        match self.blanks.pop() {
            Some(blank) => blank,
            None => unreachable!(),
        }
    }

    /// Takes the memory of a list's numbers out.
    pub(crate) fn take_list(&mut self, alloc: Global) -> ListMemory<E>
        ensures list { vec_capacity result.numbers ≡ self.old.numbers }
        ensures pages { self.new.pages ≡ self.old.pages }
    {
        let none = ListMemory {
            numbers: Vec::new(alloc),
            ended: Vec::new(alloc),
        };
        std::mem::replace(&mut self.list, none)
    }
}

/// The memory of so many pages.
fn blanks<E: Copy>(alloc: Global, n: u32) -> Result<Vec<Blank<E>>, AllocError>
    ensures { IfOk result (λ blanks. vec_len blanks ≡ n) }
{
    let mut blanks = Vec::new(alloc);
    for _made in 0..n {
        blanks.push(Blank::new(alloc)?)?;
    }
    Ok(blanks)
}
