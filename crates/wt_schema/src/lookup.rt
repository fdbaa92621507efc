//! Tables and columns by name.
ghost use Rattle.std.specs.Prelude.{◌≡◌, ◌<◌, ℕ, length, slice_index_or, Some, IfSome};
ghost use Rattle.wt_schema.specs.Lookup as spec;

use crate::schema::{Column, Schema, Table};
use wt_value::Name;

/// The number of the column of a name. In a schema's table it is the only one.
pub fn column_number(columns: &[Column], name: &Name) -> Option<usize>
    ensures value { result ≡ spec.column_number columns.now name.now }
    ensures found { IfSome result (λ n. n < length columns.now) }
    // What is found has the name.
    ensures named { (column : Column) → IfSome result (λ n. (slice_index_or columns.now n column).name ≡ name.now) }
    // What has the name is found.
    ensures only { spec.ColumnsDiffer columns.now → (n : ℕ) (column : Column) → n < length columns.now
        → (slice_index_or columns.now n column).name ≡ name.now → result ≡ Some n }
{
    first_column(columns, name)
}

fn first_column(columns: &[Column], name: &Name) -> Option<usize>
    ensures value { result ≡ spec.column_number columns.now name.now }
    ensures within { IfSome result (λ n. n < length columns.now) }
{
    columns.iter().position(|column| column.name == *name)
}

fn first_table(tables: &[Table], name: &Name) -> Option<usize>
    ensures value { result ≡ spec.table_number tables.now name.now }
    ensures within { IfSome result (λ n. n < length tables.now) }
{
    tables.iter().position(|table| table.name == *name)
}

impl Schema {
    /// The number of the table of a name, which is the only one.
    pub fn table_number(&self, name: &Name) -> Option<usize>
        ensures value { result ≡ spec.table_number self.now.tables name.now }
        ensures found { IfSome result (λ n. n < length self.now.tables) }
        // What is found has the name.
        ensures named { (table : Table) → IfSome result (λ n. (slice_index_or self.now.tables n table).name ≡ name.now) }
        // What has the name is found.
        ensures only { (n : ℕ) (table : Table) → n < length self.now.tables
            → (slice_index_or self.now.tables n table).name ≡ name.now → result ≡ Some n }
    {
        first_table(self.tables.as_slice(), name)
    }
}
