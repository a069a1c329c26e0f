// Storing a value at a key: a plan that only reads, then the change.
ghost use Rattle.std.specs.Prelude.{◌≡◌, List, ℕ};
ghost use Rattle.words.specs.Bytes.{num};
ghost use Rattle.tables.specs.Content.{content};
ghost use Rattle.tables.specs.Table.{Table};
ghost use Rattle.keys.specs.Values.{has};
ghost use Rattle.keys.specs.Steps.{pays_fresh, store_price};
ghost use Rattle.keys.specs.Lent.{Given, key_bufs, given};
ghost use Rattle.keys.specs.Sound.{Loader};
ghost use Rattle.keys.specs.StorePlans.{store_fits, StoreReady, PlansStore, Stores};
ghost use Rattle.keys.specs.declared.look.TableRows.{TableRows};

use crate::counts::Counts;
use crate::look::{Look, TableRows};
use tables::rows::Rows;

// What a store comes to: the value before, whether it pays as fresh, its price beyond the base price, and whether all of it has room.
#[derive(Clone, Copy)]
pub struct StorePlan {
    pub look: Look,
    pub fresh: bool,
    pub price: u64,
    pub room: bool,
}

// Whether a store of v over prior pays as fresh, with n keys dirty. The tables are searched only where the values leave it open.
#[tactic(auto, unfolding(crate::specs::Steps::pays_fresh))]
fn pays_fresh(
    n: usize,
    writable: Rows<32>,
    paid: Rows<32>,
    key: &[u8; 32],
    v: u64,
    prior: u64,
) -> bool
    ensures { result ≡ pays_fresh v prior (has (num key.now) (content paid.entry)) (has (num key.now) (content writable.entry)) n }
{
    v != 0 && prior == 0 && !paid.has(key) && (writable.has(key) || 8 <= n)
}

// What a store costs beyond its base price.
#[tactic(auto, unfolding(crate::specs::Steps::store_price))]
fn store_price(fresh: bool, changes: Rows<40>, key: &[u8; 32]) -> u64
    ensures { result ≡ store_price fresh (has (num key.now) (content changes.entry)) changes.entry.count }
{
    if fresh || (changes.count >= 8 && !changes.has(key)) {
        227000
    } else {
        0
    }
}

// Whether the key, the fetched value if it came, and the key as paid if fresh, all have room.
#[tactic(auto, unfolding(crate::specs::StorePlans::store_fits))]
fn store_room(
    changes: Rows<40>,
    fetched: Rows<40>,
    paid: Rows<32>,
    key: &[u8; 32],
    seen: Look,
    fresh: bool,
) -> bool
    ensures { (v : ℕ) → result ≡ store_fits changes.entry.count fetched.entry.count paid.entry.count (num key.now) v seen fresh
        changes.entry.bytes.now fetched.entry.bytes.now paid.entry.bytes.now }
{
    crate::room::room(changes, key, true)
        && crate::room::room(fetched, key, seen.came)
        && crate::room::room(paid, key, fresh)
}

// What a store of v at a key comes to. Changes nothing.
pub fn plan_store(
    lent: TableRows,
    c: Counts,
    store: &[u8],
    loader: &[u8],
    changes: &[u8],
    fetched: &[u8],
    writable: &[u8],
    paid: &[u8],
    key: &[u8; 32],
    v: u64,
) -> StorePlan
    requires { Table 40 lent.store store.now × Loader lent.has_loader lent.loader loader.now
        × Table 40 c.changes changes.now × Table 40 c.fetched fetched.now
        × Table 32 c.writes writable.now × Table 32 c.paid paid.now }
    ensures { (rd wr kr kw mr : List ℕ) →
        PlansStore lent (given rd wr kr kw store.now loader.now) c
        (key_bufs changes.now fetched.now mr writable.now paid.now)
        (num key.now) v result }
{
    let store: Rows<40> = Rows {
        bytes: store,
        count: lent.store,
    };
    let loader = crate::look::loader_table(lent, loader);
    let changes: Rows<40> = Rows {
        bytes: changes,
        count: c.changes,
    };
    let fetched: Rows<40> = Rows {
        bytes: fetched,
        count: c.fetched,
    };
    let writable: Rows<32> = Rows {
        bytes: writable,
        count: c.writes,
    };
    let paid: Rows<32> = Rows {
        bytes: paid,
        count: c.paid,
    };
    let look = crate::look::look_up(store, loader, changes, fetched, key);
    let fresh = pays_fresh(c.changes, writable, paid, key, v, look.value);
    let price = store_price(fresh, changes, key);
    let room = store_room(changes, fetched, paid, key, look, fresh);
    StorePlan {
        look,
        fresh,
        price,
        room,
    }
}

// Puts v at a key as planned. The plan must have found room.
pub fn store(
    c: Counts,
    plan: StorePlan,
    changes: &mut [u8],
    fetched: &mut [u8],
    paid: &mut [u8],
    key: &[u8; 32],
    v: u64,
) -> Counts
    requires { StoreReady c plan (num key.now) v changes.old fetched.old paid.old }
    ensures { (l : TableRows) (g : Given) (mr mw : List ℕ) →
        Stores l g (num key.now) v plan c result
        (key_bufs changes.old fetched.old mr mw paid.old)
        (key_bufs changes.new fetched.new mr mw paid.new) }
{
    let l = plan.look;
    Counts {
        changes: crate::room::put_if(changes, c.changes, key, v, true),
        fetched: crate::room::put_if(fetched, c.fetched, key, l.value, l.came),
        paid: crate::room::add_if(paid, c.paid, key, plan.fresh),
        ..c
    }
}
