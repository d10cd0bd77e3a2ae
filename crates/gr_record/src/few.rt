//! Lists that are mostly of one thing.

ghost use Rattle.std.specs.Prelude.{◌≡◌};
ghost use Rattle.std.specs.Mem.{FitsInMemory};
ghost use Rattle.std.specs.Option.{option_to_list};
ghost use Rattle.gr_record.specs.Fews.{members};

use std::slice;

/// A list that takes no memory of its own for one thing.
#[derive(Drop)]
pub enum Few<T> {
    Empty,
    One(T),
    Many(Vec<T>),
}

impl<T> Few<T> {
    /// The one thing, if it is there. It takes no memory.
    pub fn of_one(item: Option<T>) -> Few<T>
        ensures { members result ≡ option_to_list item }
    {
        match item {
            Some(item) => Few::One(item),
            None => Few::Empty,
        }
    }

    /// These, in their order. It takes no memory.
    pub fn of_many(items: Vec<T>) -> Few<T>
    where
        T: Drop,
        ensures { members result ≡ items.items }
    {
        if items.len() != 1 {
            return Few::Many(items);
        }
        let mut items = items;
        match items.pop() {
            Some(item) => Few::One(item),
            None => Few::Empty,
        }
    }

    /// These, in their order.
    pub fn as_slice(&self) -> &[T]
        requires { FitsInMemory T.row }
        ensures { result.now ≡ members self.now }
    {
        match self {
            Few::Empty => &[],
            Few::One(item) => slice::from_ref(item),
            Few::Many(items) => items.as_slice(),
        }
    }
}
