//! One value of a row, and the truth of a condition on it.
ghost use Rattle.std.specs.Prelude.{◌≡◌, ◌↔◌, IsTrue};
ghost use Rattle.wt_value.specs.declared.value.Value.TheVariants.{Null};

use crate::text::Text;

/// NULL, a whole number of 64 bits, or a text.
#[derive(Clone, Debug, PartialEq, Eq, Drop)]
pub enum Value {
    Null,
    Int(i64),
    Text(Text),
}

impl Value {
    /// Whether the value is NULL.
    pub fn is_null(&self) -> bool
        ensures { IsTrue result ↔ (self.now ≡ Null) }
    {
        matches!(self, Value::Null)
    }
}

/// A truth value of SQL's three-valued logic.
#[derive(Clone, Copy, Debug, PartialEq, Eq)]
pub enum Truth {
    False,
    Unknown,
    True,
}
