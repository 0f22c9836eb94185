ghost use Rattle.std.specs.Prelude.{◌≡◌, [], ◌∷◌, List, None, Some, IfOk, slice_get};
ghost use Rattle.jh_containers.specs.shared_lists.Chained.{IsChain, Keeps};

use jh_name::NoMemory;
use std::alloc::Global;
use std::marker::Model;

/// An item of a list, and the number of the item before it, where there is one.
#[derive(Clone, Copy)]
pub struct Link<T> {
    pub before: Option<usize>,
    pub item: T,
}

/// Lists that share what they begin with. A list is known by the number of its last item, and the empty list by none.
/// A list stays as it is when others are made. Contracts see all links, in the order in which they were made.
#[derive(Drop)]
pub struct Chains<T> {
    links: Vec<Link<T>>,
}

impl<T> Model for Chains<T> {
    ghost use Rattle.std.specs.Prelude.{List};
    ghost use Rattle.jh_containers.specs.declared.shared_lists.chains.Link.{Link};

    ghost Value = { List (Link T) };

    ghost view = { λ chains. chains.links.items };
}

impl<T: Copy> Chains<T> {
    /// No lists but the empty one.
    pub fn new(alloc: Global) -> Chains<T>
        ensures { result ≡ [] }
    {
        Chains {
            links: Vec::new(alloc),
        }
    }

    /// The list with one more item. It takes the room of one link, however long the list is.
    pub fn extend(&mut self, list: Option<usize>, item: T) -> Result<usize, NoMemory>
        ensures made { IfOk result (λ made. (xs : List T) → IsChain self.old list xs → IsChain self.new (Some made) (item ∷ xs)) }
        ensures keeps { Keeps self.old self.new }
    {
        let made = self.links.len();
        self.links.push(Link { before: list, item })?;
        Ok(made)
    }

    /// The link of this number, where there is one.
    fn link(&self, number: usize) -> Option<Link<T>>
        ensures { result ≡ slice_get self.now number }
    {
        self.links.get(number).copied()
    }

    /// The items of a list, the last one first.
    pub fn items(&self, alloc: Global, list: Option<usize>) -> Result<Vec<T>, NoMemory>
        ensures { IfOk result (λ made. (xs : List T) → IsChain self.now list xs → made.items ≡ xs) }
    {
        let mut items = Vec::new(alloc);
        let mut next = list;
        for _turn in 0..u64::MAX {
            match next {
                None => return Ok(items),
                Some(number) => match self.link(number) {
                    None => return Err(NoMemory),
                    Some(link) => {
                        items.push(link.item)?;
                        next = link.before;
                    }
                },
            }
        }
        Err(NoMemory)
    }
}
