// The value at a key.
ghost use Rattle.std.specs.Prelude.{◌≡◌};
ghost use Rattle.words.specs.Bytes.{num};
ghost use Rattle.tables.specs.Rows.{rows};
ghost use Rattle.tables.specs.Content.{content};
ghost use Rattle.keys.specs.Values.{look_in, from_loader};
ghost use Rattle.keys.specs.Lent.{loader_of};
ghost use Rattle.keys.specs.Sound.{Loader};
ghost use Rattle.keys.specs.Tables.{loader_content};

use tables::rows::Rows;

// A value, and whether it came from the loader just now.
#[derive(Clone, Copy)]
pub struct Look {
    pub value: u64,
    pub came: bool,
}

// How many rows stand in the lent tables: the store, and the loader if there is one.
#[derive(Clone, Copy)]
pub struct TableRows {
    pub store: usize,
    pub has_loader: bool,
    pub loader: usize,
}

// The loader's table, if there is a loader.
pub fn loader_table(lent: TableRows, loader: &[u8]) -> Option<Rows<'_, 40>>
    requires { Loader lent.has_loader lent.loader loader.now }
    ensures { loader_content result ≡ loader_of lent.has_loader (rows 40 lent.loader loader.now) }
{
    if lent.has_loader {
        Some(Rows {
            bytes: loader,
            count: lent.loader,
        })
    } else {
        None
    }
}

// The loader's value at a key: 0 if it does not have it, or there is none.
#[tactic(auto, unfolding(crate::specs::Values::from_loader, crate::specs::Values::or_zero))]
fn fetch(loader: Option<Rows<40>>, key: &[u8; 32]) -> Look
    ensures { result ≡ from_loader (loader_content loader.entry) (num key.now) }
{
    match loader {
        Some(t) => Look {
            value: t.get(key).unwrap_or(0),
            came: true,
        },
        None => Look {
            value: 0,
            came: false,
        },
    }
}

// The value at a key: stored, else the store's, else fetched before, else the loader's, else 0.
#[tactic(auto, unfolding(crate::specs::Values::look_in, crate::specs::Values::first_of))]
pub fn look_up(
    store: Rows<40>,
    loader: Option<Rows<40>>,
    changes: Rows<40>,
    fetched: Rows<40>,
    key: &[u8; 32],
) -> Look
    ensures { result ≡ look_in (content changes.entry) (content store.entry) (content fetched.entry) (loader_content loader.entry) (num key.now) }
{
    if let Some(value) = changes.get(key) {
        return Look { value, came: false };
    }
    if let Some(value) = store.get(key) {
        return Look { value, came: false };
    }
    if let Some(value) = fetched.get(key) {
        return Look { value, came: false };
    }
    fetch(loader, key)
}
