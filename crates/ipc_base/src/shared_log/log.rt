//! The log that threads share, and what is done with it. Nothing waits, and no step fails.
ghost use Rattle.std.specs.Prelude.{◌≡◌, ◌<◌, [], ◌∷◌, ◌++◌, Contains};
ghost use mathlib.Core.List.{IsPrefix};
ghost use Rattle.ipc_base.specs.LogViews.{table_of};
ghost use Rattle.ipc_base.specs.LogRules.{AreOne, EndsOnce, IsNobodys, IsOnlyOf, entries_of, numbers_of};

use crate::shared_log::entry::{Entry, Naming};
use crate::shared_log::front::Front;
use crate::shared_log::keeper::Keeper;
use crate::shared_log::own::Own;
use crate::shared_log::roll::Roll;
use crate::shared_log::rule::{
    Adds, Begins, Calls, Compares, Ends, Goes, Looks, Meets, OneLog, Parts, PartsRoll, Pass, Shows,
    Takes, TakesRoll, View,
};
use atomic_table::Table;
use std::alloc::{AllocError, Global};
use std::marker::{Model, PhantomData};
use std::sync::ledger::Total;

/// A new log, in which nothing stands, and which no type stands for yet.
#[derive(Drop)]
pub struct Blank<E: Entry + Drop> {
    table: Table<E, View<E>, (), OneLog, Global>,
    pass: Pass<E>,
}

impl<E: Entry + Drop> Model for Blank<E> {
    ghost use Rattle.std.specs.Prelude.{◌≡◌, ◌<◌, []};
    ghost use Rattle.atomic_table.specs.Seated.{TableId};

    ghost Value = { TableId };

    ghost use Rattle.ipc_base.specs.LogViews.{gathering};

    ghost view = { λ b. b.table.shared.table_id };

    ghost invariant = { λ b. (0 < b.table.shared.table_id.words) × (b.pass.table_id ≡ b.table.shared.table_id) × (b.pass.me ≡ (gathering [] [], [])) };
}

impl<E: Entry + Drop> Blank<E> {
    /// Nothing stands in it.
    ///
    /// # Errors
    ///
    /// No memory.
    pub fn new(alloc: Global) -> Result<Blank<E>, AllocError> {
        let (table, pass) = Table::of_words(alloc, &[0], &())?;
        Ok(Blank { table, pass })
    }

    /// The log, who keeps it, and who is told of each end of an owner.
    pub fn open<C: Naming>(self) -> (Log<E, C>, Keeper<E, C>, Roll<E, C>)
        requires { self ≡ table_of E.kind C.tables }
        ensures nothing { result.1 ≡ [] }
        ensures nobody { result.2 ≡ [] }
    {
        let Blank { table, mut pass } = self;
        let pass_of_roll = table.shared.split_seat::<PartsRoll>(&mut pass);
        let log = Log {
            table,
            of: PhantomData,
        };
        let keeper = Keeper {
            pass,
            of: PhantomData,
        };
        let roll = Roll {
            pass: pass_of_roll,
            of: PhantomData,
        };
        (log, keeper, roll)
    }
}

/// One log, which all threads share. What stands in it proofs alone know.
#[derive(Drop)]
pub struct Log<E: Entry + Drop, C: Naming> {
    table: Table<E, View<E>, (), OneLog, Global>,
    of: PhantomData<Total<C>>,
}

impl<E: Entry + Drop, C: Naming> Model for Log<E, C> {
    ghost use Rattle.std.specs.Prelude.{◌≡◌, ◌<◌};
    ghost use Rattle.atomic_table.specs.Seated.{TableId};
    ghost use Rattle.ipc_base.specs.LogViews.{table_of};

    ghost Value = { TableId };

    ghost view = { λ l. l.table.shared.table_id };

    ghost invariant = { λ l. (l.table.shared.table_id ≡ table_of E.kind C.tables) × (0 < l.table.shared.table_id.words) };
}

impl<E: Entry + Drop, C: Naming> Log<E, C> {
    /// Adds an entry that is no owner's.
    pub fn add(&self, keeper: &mut Keeper<E, C>, entry: &E)
        requires nobodys { IsNobodys E.is_of entry.now }
        requires lives { E.ends entry.now ≡ [] }
        ensures { keeper.new ≡ keeper.old ++ entry.now ∷ [] }
    {
        self.table
            .shared
            .compare_exchange_with::<Adds>(&mut keeper.pass, 0, 0, 0, entry);
    }

    /// Adds an entry, from which on there is an owner of a number that nobody had.
    pub fn begin(&self, keeper: &mut Keeper<E, C>, entry: &E, number: u64) -> Own<E, C>
        requires begins { E.begins entry.now ≡ number ∷ [] }
        requires is_new { Contains (numbers_of E.begins keeper.old) number → ⊥ }
        requires only { IsOnlyOf E.is_of entry.now number }
        requires lives { E.ends entry.now ≡ [] }
        ensures log { keeper.new ≡ keeper.old ++ entry.now ∷ [] }
        ensures number { result.number ≡ number }
        ensures mine { result.mine ≡ entry.now ∷ [] }
        ensures seen { result.seen ≡ keeper.new }
    {
        self.table
            .shared
            .compare_exchange_with::<Begins>(&mut keeper.pass, 0, 0, 0, entry);
        let pass = self.table.shared.split_seat::<Parts>(&mut keeper.pass);
        Own {
            number,
            pass,
            of: PhantomData,
        }
    }

    /// Adds an entry of an owner.
    pub fn add_own(&self, keeper: &mut Keeper<E, C>, own: &mut Own<E, C>, entry: &E)
        requires only { IsOnlyOf E.is_of entry.now own.old.number }
        requires lives { E.ends entry.now ≡ [] }
        ensures log { keeper.new ≡ keeper.old ++ entry.now ∷ [] }
        ensures number { own.new.number ≡ own.old.number }
        ensures mine { own.new.mine ≡ own.old.mine ++ entry.now ∷ [] }
        ensures seen { own.new.seen ≡ keeper.new }
        ensures goes_on { IsPrefix own.old.seen keeper.old }
        ensures all { own.old.mine ≡ entries_of E.is_of own.old.number keeper.old }
    {
        let pass = self.table.shared.split_seat::<Goes>(&mut own.pass);
        self.table.shared.join_seat::<Takes>(&mut keeper.pass, pass);
        self.table
            .shared
            .compare_exchange_with::<Adds>(&mut keeper.pass, 0, 0, 0, entry);
        own.pass = self.table.shared.split_seat::<Parts>(&mut keeper.pass);
    }

    /// Adds the last entry of an owner, which ends with it, and tells who has the roll.
    pub fn end(&self, keeper: &mut Keeper<E, C>, own: Own<E, C>, roll: &mut Roll<E, C>, entry: &E)
        requires only { IsOnlyOf E.is_of entry.now own.number }
        requires ends { E.ends entry.now ≡ own.number ∷ [] }
        ensures log { keeper.new ≡ keeper.old ++ entry.now ∷ [] }
        ensures roll { roll.new ≡ keeper.new }
        ensures goes_on { IsPrefix own.seen keeper.old }
        ensures all { own.mine ≡ entries_of E.is_of own.number keeper.old }
        ensures rolled { IsPrefix roll.old keeper.old }
        ensures ended { numbers_of E.ends roll.old ≡ numbers_of E.ends keeper.old }
    {
        let Own { pass, .. } = own;
        let pass_of_roll = self.table.shared.split_seat::<Goes>(&mut roll.pass);
        self.table
            .shared
            .join_seat::<TakesRoll>(&mut keeper.pass, pass_of_roll);
        self.table.shared.join_seat::<Takes>(&mut keeper.pass, pass);
        self.table
            .shared
            .compare_exchange_with::<Ends>(&mut keeper.pass, 0, 0, 0, entry);
        roll.pass = self.table.shared.split_seat::<PartsRoll>(&mut keeper.pass);
    }

    /// Who has the roll is told what the log is now, and of no end that was not told before.
    pub fn call_roll(&self, keeper: &mut Keeper<E, C>, roll: &mut Roll<E, C>)
        ensures log { keeper.new ≡ keeper.old }
        ensures roll { roll.new ≡ keeper.old }
        ensures rolled { IsPrefix roll.old keeper.old }
        ensures ended { numbers_of E.ends roll.old ≡ numbers_of E.ends keeper.old }
        ensures once { EndsOnce E.is_of E.ends keeper.old }
    {
        let pass = self.table.shared.split_seat::<Goes>(&mut roll.pass);
        self.table
            .shared
            .join_seat::<TakesRoll>(&mut keeper.pass, pass);
        self.table.shared.load::<Calls>(&mut keeper.pass, 0);
        roll.pass = self.table.shared.split_seat::<PartsRoll>(&mut keeper.pass);
    }

    /// What the log is to an owner.
    pub fn look(&self, keeper: &mut Keeper<E, C>, own: &mut Own<E, C>)
        ensures log { keeper.new ≡ keeper.old }
        ensures number { own.new.number ≡ own.old.number }
        ensures mine { own.new.mine ≡ own.old.mine }
        ensures seen { own.new.seen ≡ keeper.new }
        ensures goes_on { IsPrefix own.old.seen keeper.old }
        ensures all { own.old.mine ≡ entries_of E.is_of own.old.number keeper.old }
    {
        let pass = self.table.shared.split_seat::<Goes>(&mut own.pass);
        self.table.shared.join_seat::<Takes>(&mut keeper.pass, pass);
        self.table.shared.load::<Looks>(&mut keeper.pass, 0);
        own.pass = self.table.shared.split_seat::<Parts>(&mut keeper.pass);
    }

    /// The log so far.
    pub fn front(&self, keeper: &mut Keeper<E, C>) -> Front<E, C>
        ensures log { keeper.new ≡ keeper.old }
        ensures front { result ≡ keeper.old }
    {
        let pass = self.table.shared.split_seat::<Shows>(&mut keeper.pass);
        Front {
            pass,
            of: PhantomData,
        }
    }

    /// The log so far, as an owner saw it.
    pub fn front_of(&self, own: &mut Own<E, C>) -> Front<E, C>
        ensures own { own.new ≡ own.old }
        ensures front { result ≡ own.old.seen }
    {
        let pass = self.table.shared.split_seat::<Shows>(&mut own.pass);
        Front {
            pass,
            of: PhantomData,
        }
    }

    /// What two saw is of one log: one of them saw what the other did, and perhaps more.
    pub fn compare(&self, one: &mut Front<E, C>, other: Front<E, C>)
        ensures same { one.new ≡ one.old }
        ensures are_one { AreOne one.old other }
    {
        let Front { pass, of: _ } = other;
        self.table.shared.join_seat::<Meets>(&mut one.pass, pass);
        self.table.shared.load::<Compares>(&mut one.pass, 0);
    }
}
