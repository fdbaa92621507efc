//! Where keys stand among a table's keys, looked for once: its primary key, and a key of some columns, which is a hint that
//! is looked at before it is believed.
ghost use Rattle.std.specs.Prelude.{◌≡◌, IfOk, IfErr};
ghost use Rattle.wt_ddl.specs.Places as spec;

use crate::fault::DdlError;
use crate::table::TableRead;
use std::alloc::Global;
use std::collections::BTreeMap;
use wt_schema::Key;

/// The place of a table's primary key, and one for each set of columns that is a key of it.
#[derive(Drop)]
pub(crate) struct KeyPlaces {
    pub primary: Option<usize>,
    by_columns: BTreeMap<u64, usize>,
}

// The columns as the bits of a number.
fn mask_of(columns: &[u32]) -> u64 {
    let mut mask: u64 = 0;
    for column in columns {
        mask |= 1 << (*column % 64);
    }
    mask
}

fn primary_place(keys: &[Key]) -> Option<usize>
    ensures { result ≡ spec.primary_place keys.now }
{
    keys.iter().position(|key| key.primary)
}

fn by_columns(alloc: Global, keys: &[Key]) -> Result<BTreeMap<u64, usize>, DdlError>
    ensures { IfErr result (λ e. e ≡ DdlError.Memory) }
{
    let mut by_columns = BTreeMap::new(alloc);
    for (place, key) in keys.iter().enumerate() {
        by_columns.insert(mask_of(key.columns.as_slice()), place)?;
    }
    Ok(by_columns)
}

impl KeyPlaces {
    fn of(alloc: Global, keys: &[Key]) -> Result<KeyPlaces, DdlError>
        ensures primary { IfOk result (λ places. places.primary ≡ spec.primary_place keys.now) }
        ensures err { IfErr result (λ e. e ≡ DdlError.Memory) }
    {
        Ok(KeyPlaces {
            primary: primary_place(keys),
            by_columns: by_columns(alloc, keys)?,
        })
    }

    /// The place to look at for a key of these columns.
    pub(crate) fn find(&self, columns: &[u32]) -> Option<usize> {
        self.by_columns.get(&mask_of(columns)).copied()
    }
}

/// The places of the keys of each table.
pub(crate) fn places_of(alloc: Global, tables: &[TableRead]) -> Result<Vec<KeyPlaces>, DdlError>
    ensures placed { IfOk result (λ all. spec.Placed tables.now all.items) }
    ensures err { IfErr result (λ e. e ≡ DdlError.Memory) }
{
    let mut all = Vec::new(alloc);
    let mut i = 0;
    'tables: while i < tables.len() {
        all.push(KeyPlaces::of(alloc, tables[i].keys.as_slice())?)?;
        i += 1;
    }
    Ok(all)
}
