//! The entries of pages that ended with a list.
ghost use Rattle.std.specs.Prelude.{◌≡◌, ◌<◌, ◌∷◌, ◌++◌, [], length, vec_len, vec_capacity, IfSome, IfNone};
ghost use Rattle.std.specs.List.{flat_map, All};

use crate::page::Page;
use std::marker::Model;

/// The entries of the pages that no list names any more, to be handed out each once. It can't be dropped.
pub struct EndedPages<E> {
    pages: Vec<Page<E>>,
}

impl<E> Model for EndedPages<E> {
    ghost use Rattle.std.specs.Prelude.{List, ◌<◌, ℕ, length};
    ghost use Rattle.std.specs.List.{flat_map, All};

    ghost Value = { List E };

    ghost view = { λ a. flat_map (λ page. page) a.pages.items };

    ghost invariant = { λ a. All (λ page. 0 < length page) a.pages.items };
}

impl<E: Copy> EndedPages<E> {
    /// The entries of these pages, none of which is empty.
    pub(crate) fn of(pages: Vec<Page<E>>) -> EndedPages<E>
        requires { All (λ page. 0 < length page) pages.items }
        ensures { result ≡ flat_map (λ page. page) pages.items }
    {
        EndedPages { pages }
    }

    /// An entry, the last one first, and none at the end.
    pub fn next(&mut self) -> Option<E>
        ensures some { IfSome result (λ entry. self.old ≡ self.new ++ entry ∷ []) }
        ensures none { IfNone result (self.old ≡ []) }
        ensures rest { IfNone result (self.new ≡ []) }
    {
        let mut page = self.pages.pop()?;
        let entry = page.pop();
        if !page.is_empty() {
            self.pages.push_reserved(page);
        }
        entry
    }

    /// Ends it, when all entries were handed out.
    pub fn close(self)
        requires { self ≡ [] }
    {
        let EndedPages { pages } = self;
        drop(pages);
    }
}
