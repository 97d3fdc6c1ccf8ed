//! Records, and tables of records.
ghost use Rattle.std.specs.Prelude.{◌≡◌, ℕ};
ghost use Rattle.oci_model.specs.Shape.{Shape, rows};
ghost use Rattle.oci_schema.specs.Shapes.{members_in};

use crate::presence::Presence;
use crate::schema::Schema;

/// A member of a record.
#[derive(Clone, Copy)]
pub struct Member {
    /// Its name.
    pub name: &'static str,
    /// Its alias, under which it is read too.
    pub alias: Option<&'static str>,
    /// Whether it is required, and what its absence means.
    pub presence: Presence,
    /// What its value may be.
    pub schema: Schema,
}

/// A record: an object with these members; unknown members are ignored.
#[derive(Clone, Copy)]
pub struct Record {
    /// The name of its type.
    pub name: &'static str,
    /// Its members, in the order in which they are looked at.
    pub members: &'static [Member],
}

/// A table of records that name one another by their places, as the definitions of a JSON Schema do by their names.
pub trait Records {
    ghost shape_at: { Self → ℕ → Shape };

    /// The record at this place.
    fn record(&self, place: usize) -> &'static Record
        ensures { shape_at self.now place ≡ rows (members_in (shape_at self.now) result.now.members.now) };
}
