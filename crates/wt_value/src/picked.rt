//! Rows at some of their places, without taking memory.
ghost use Rattle.std.specs.Prelude.{◌≡◌, ◌≢◌, ◌↔◌, IsTrue};
ghost use Rattle.wt_value.specs.declared.value.Value.TheVariants.{Null};
ghost use Rattle.wt_value.specs.Values.{Matches, HasNoNull, value_at, pick, row_matches};

use crate::row::Row;
use crate::value::Value;

/// Whether the value at a place is NULL, as it is past the row's end.
pub fn is_null_at(row: &[Value], place: u32) -> bool
    ensures { IsTrue result ↔ (value_at row.now place ≡ Null) }
{
    let place = place as usize;
    place >= row.len() || row[place].is_null()
}

/// Whether the row has no NULL at these places.
pub fn has_no_null_at(row: &[Value], mut places: &[u32]) -> bool
    ensures { IsTrue result ↔ HasNoNull (pick places.entry.now row.now) }
{
    'places: while let [place, others @ ..] = places {
        if is_null_at(row, *place) {
            return false;
        }
        places = others;
    }
    true
}

fn value_matches_at(a: &[Value], place: u32, b: &[Value], other: u32) -> bool
    ensures { IsTrue result ↔ ((value_at a.now place ≡ value_at b.now other) × (value_at a.now place ≢ Null)) }
{
    let (i, j) = (place as usize, other as usize);
    i < a.len() && j < b.len() && !a[i].is_null() && a[i] == b[j]
}

fn agree_at(a: &[Value], mut places: &[u32], b: &[Value], mut others: &[u32]) -> bool
    ensures { IsTrue result ↔ Matches (pick places.entry.now a.now) (pick others.entry.now b.now) }
{
    'places: while let ([place, more_places @ ..], [other, more_others @ ..]) = (places, others) {
        if !value_matches_at(a, *place, b, *other) {
            return false;
        }
        places = more_places;
        others = more_others;
    }
    places.is_empty() && others.is_empty()
}

/// Whether two rows match, the first at some places, the second at others.
pub fn matches_at(a: &Row, places: &[u32], b: &Row, others: &[u32]) -> bool
    ensures matching { IsTrue result ↔ Matches (pick places.now a.now) (pick others.now b.now) }
    ensures test { result ≡ row_matches (pick places.now a.now) (pick others.now b.now) }
{
    agree_at(a.as_slice(), places, b.as_slice(), others)
}
