ghost use Rattle.std.specs.Prelude.{ℕ, List, Bool};
ghost use Rattle.std.specs.Coded.{coded_list, coded_ℕ, coded_bool};
ghost use base.Fml.{ftrue};

use std::marker::Model;

/// What a file of the system has, what was found in it, how often the system failed, and whether no
/// other program has the file, as far as it is known: no code holds it. What the system does with a file is beyond the
/// proofs. So nothing ties this to the file but that each call of the system stands beside a step
/// here: whoever calls the one calls the other.
#[derive(Drop)]
pub struct Told {
    pub ghost appended: { List ℕ } by { coded_list coded_ℕ },
    pub ghost synced: { List ℕ } by { coded_list coded_ℕ },
    // what was read of it, before it was cut or anything was appended
    pub ghost found: { List ℕ } by { coded_list coded_ℕ },
    pub ghost faults: { ℕ } by { coded_ℕ },
    pub ghost locked: { Bool } by { coded_bool },
}

impl Model for Told {
    ghost also_owns = { λ _. ftrue };
}

impl Told {
    ghost use Rattle.std.specs.Prelude.{◌≡◌, suc, true, false, [], ◌++◌, take};
    ghost use Rattle.journal.specs.declared.store.told.Told.{Told as Known};

    /// Nothing is known of the file yet.
    pub fn nothing() -> Told
        ensures { result ≡ record { appended = []; synced = []; found = []; faults = 0; locked = false } }
    {
        Told {}
    }

    // What is known next. Any value would do: the steps below say which it is, by what they are given.
    fn next(_was: &Told, _bytes: &[u8], _size: usize) -> Told
        ghost known: { Known }
        ensures { result ≡ known }
    {
        Told {}
    }

    /// The system locked the file: no other program has it.
    pub fn lock(&mut self)
        ensures { self.new ≡ record self.old { locked = true } }
    {
        *self = Told::next(self, &[], 0);
    }

    /// These bytes were read behind what is known, and are on the disk.
    pub fn read(&mut self, bytes: &[u8])
        ensures { self.new ≡ record self.old {
          appended = self.old.appended ++ bytes.now;
          synced = self.old.synced ++ bytes.now;
          found = self.old.found ++ bytes.now;
        } }
    {
        *self = Told::next(self, bytes, 0);
    }

    /// The system took these bytes, to append them.
    pub fn append(&mut self, bytes: &[u8])
        ensures { self.new ≡ record self.old { appended = self.old.appended ++ bytes.now } }
    {
        *self = Told::next(self, bytes, 0);
    }

    /// The system brought all of the file to the disk.
    pub fn sync(&mut self)
        ensures { self.new ≡ record self.old { synced = self.old.appended } }
    {
        *self = Told::next(self, &[], 0);
    }

    /// The system cut the file to so many of its first bytes.
    pub fn cut(&mut self, size: usize)
        ensures { self.new ≡ record self.old {
          appended = take size self.old.appended;
          synced = take size self.old.synced;
        } }
    {
        *self = Told::next(self, &[], size);
    }

    /// The system did not do what it was asked, or a signal broke it off.
    pub fn fail(&mut self)
        ensures { self.new ≡ record self.old { faults = suc self.old.faults } }
    {
        *self = Told::next(self, &[], 0);
    }
}
