use std::alloc::Global;

/// Items that come one after another; or that there was no memory for some of them.
#[derive(Drop)]
pub struct Items<T> {
    pub items: Vec<T>,
    pub failed: bool,
}

impl<T: Copy> Items<T> {
    ghost use Rattle.std.specs.Prelude.{◌≡◌, [], ◌∷◌, false};
    ghost use Rattle.machine.specs.Gains.{Gained};

    /// No items yet.
    pub fn new(heap: Global) -> Items<T>
        ensures items { result.items.items ≡ [] }
        ensures failed { result.failed ≡ false }
    {
        Items {
            items: Vec::new(heap),
            failed: false,
        }
    }

    /// Lets go of all items, and keeps their memory for the next.
    pub fn clear(&mut self)
        ensures items { self.new.items.items ≡ [] }
        ensures failed { self.new.failed ≡ false }
    {
        self.items.clear();
        self.failed = false;
    }

    /// One more.
    pub fn push(&mut self, item: T)
        ensures { Gained self.old self.new (item ∷ []) }
    {
        if self.items.push(item).is_err() {
            self.failed = true;
        }
    }
}
