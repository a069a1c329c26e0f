// Loading a key: a value that came from the loader is remembered.
ghost use Rattle.std.specs.Prelude.{◌≡◌, true, List, ℕ};
ghost use Rattle.words.specs.Bytes.{num};
ghost use Rattle.tables.specs.Table.{Table};
ghost use Rattle.keys.specs.Values.{row};
ghost use Rattle.keys.specs.Lent.{Given, key_bufs};
ghost use Rattle.keys.specs.Sound.{holds};
ghost use Rattle.keys.specs.LoadPlans.{PlansLoad, Loads};
ghost use Rattle.keys.specs.declared.look.TableRows.{TableRows};

use crate::counts::Counts;
use crate::look::Look;
use tables::rows::Rows;

// Whether a value that was looked up has room, if it is to be remembered. Changes nothing.
pub fn load_room(c: Counts, fetched: &[u8], key: &[u8; 32], seen: Look) -> bool
    requires { Table 40 c.fetched fetched.now }
    ensures { (l : TableRows) (g : Given) (ch mr mw pd : List ℕ) →
        PlansLoad l g c (key_bufs ch fetched.now mr mw pd) (num key.now) seen result }
{
    let fetched: Rows<40> = Rows {
        bytes: fetched,
        count: c.fetched,
    };
    crate::room::room(fetched, key, seen.came)
}

// Remembers a value that was looked up, if it came from the loader. There must be room.
pub fn load(c: Counts, fetched: &mut [u8], key: &[u8; 32], seen: Look) -> Counts
    requires { Table 40 c.fetched fetched.old
        × (holds 40 c.fetched seen.came (row (num key.now) seen.value) fetched.old ≡ true) }
    ensures { (l : TableRows) (g : Given) (ch mr mw pd : List ℕ) →
        Loads l g (num key.now) seen c result (key_bufs ch fetched.old mr mw pd) (key_bufs ch fetched.new mr mw pd) }
{
    Counts {
        fetched: crate::room::put_if(fetched, c.fetched, key, seen.value, seen.came),
        ..c
    }
}
